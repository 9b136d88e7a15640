// The cells of one array term (01, Printed lines): "for each array and index value that a source reaches there, by array, then index".
ghost use Rattle.std.specs.Prelude.{◌≡◌, ◌<◌, [], length, map};
ghost use Rattle.paper.specs.Cells.{place};
ghost use Rattle.paper.specs.Sizes.{max_sources};
ghost use Rattle.reach.specs.Reached.{opens_in, sources_in};
ghost use Rattle.reach.specs.Steps.{Within};
ghost use Rattle.model.specs.Listed.{cell_in, CellsOf};

use paper::MAX_SOURCES;
use reach::stands_in;
use std::marker::Model;
use terms::Tables;
use terms::graph::origin_of;

// An index, and the value that the model has there.
#[derive(Clone, Copy, Debug, PartialEq, Eq)]
pub struct Cell {
    pub index: u64,
    pub value: u64,
}

// Cells in order of their indices: at most one for each source. A list of its own beside `lemma::Literals`, since a generic struct can have no
// array of its parameter.
#[derive(Drop)]
pub struct Cells {
    cells: [Cell; MAX_SOURCES],
    used: usize,
}

impl Model for Cells {
    ghost use Rattle.std.specs.Prelude.{◌≤◌, List, take};
    ghost use Rattle.std.specs.List.Sorted.{IsNonDecreasingBy};
    ghost use Rattle.paper.specs.Sizes.{max_sources};
    ghost use Rattle.model.specs.declared.cells.Cell.{Cell};

    ghost Value = { List Cell };

    ghost view = { λ a. take a.used a.cells };

    ghost invariant = { λ a. (a.used ≤ max_sources) × IsNonDecreasingBy (λ (cell : Cell). cell.index) (take a.used a.cells) };
}

impl Cells {
    // No cells. Who owns a list makes it of the constant, where it stands: what `new` returns is copied there.
    pub const EMPTY: Cells = Cells {
        cells: [Cell { index: 0, value: 0 }; MAX_SOURCES],
        used: 0,
    };

    pub fn new() -> Self
        ensures { result ≡ [] }
    {
        Cells::EMPTY
    }

    pub fn as_slice(&self) -> &[Cell]
        ensures { result.now ≡ self.now }
    {
        &self.cells[..self.used]
    }

    fn clear(&mut self)
        ensures { self.new ≡ [] }
    {
        self.used = 0;
    }

    // Places a cell in order of its index, unless one of that index stands there: the first stays.
    fn place(&mut self, cell: Cell)
        requires { length self.old < max_sources }
        ensures { map cell_in self.new ≡ place (cell_in cell) (map cell_in self.old) }
    {
        let found = self.cells[..self.used].binary_search_by_key(&cell.index, |other| other.index);
        if let Err(at) = found {
            self.cells.copy_within(at..self.used, at + 1);
            self.cells[at] = cell;
            self.used += 1;
        }
    }
}

// Lists the cells of one array term. Where two sources give one cell, the first is taken, as the model takes it.
pub fn list_cells(tables: &Tables, array: usize, cells: &mut Cells)
    requires within { Within tables.now.edges tables.now.counts.edges (sources_in tables.now) tables.now.counts.arrays }
    requires inside { array < tables.now.counts.arrays }
    ensures { CellsOf (opens_in tables.now) (sources_in tables.now) tables.now.counts.arrays array cells.new }
{
    cells.clear();
    let count = tables.counts.sources as usize;
    for source in &tables.sources[..count] {
        let index = tables.index_value(*source);
        let row = reach::reached_from(tables, index, array);
        if stands_in(row, origin_of(*source)) {
            cells.place(Cell {
                index,
                value: tables.assigned_value(*source),
            });
        }
    }
}

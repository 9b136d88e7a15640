// The model of a consistent query (01, Sources, edges, reach): the value of one cell, and the cells of one array.
#![tactic(auto)]

mod cells;

ghost use Rattle.std.specs.Prelude.{◌≡◌, ℕ, ◌<◌, ◌≤◌};
ghost use Rattle.paper.specs.Sizes.{max_arrays, max_sources};
ghost use Rattle.reach.specs.Reached.{opens_in, sources_in, origin_at};
ghost use Rattle.reach.specs.Steps.{Within};
ghost use Rattle.model.specs.Held.{holds_of, value_by, ValueOf};

pub use cells::{Cell, Cells, list_cells};
use reach::stands_in;
use terms::Tables;
use terms::graph::origin_of;

// The model's value "where there is none".
const UNREACHED: u64 = 0;

// Has a source the index value, and does it reach the array term, whose row has its origin?
fn holds(value: u64, index: u64, row: u64, origin: usize) -> bool
    requires { origin < max_arrays }
    ensures { result ≡ holds_of value index row origin }
{
    value == index && stands_in(row, origin)
}

// The value of the first source of the index value whose origin stands in the row, and 0 where there is none.
fn value_from(tables: &Tables, row: u64, index: u64) -> u64
    requires few { tables.now.counts.sources ≤ max_sources }
    requires origins { (k : ℕ) → k < tables.now.counts.sources → origin_at (sources_in tables.now) k < max_arrays }
    ensures { result ≡ value_by (sources_in tables.now) row index }
{
    let count = tables.counts.sources as usize;
    for source in &tables.sources[..count] {
        let value = tables.index_value(*source);
        if holds(value, index, row, origin_of(*source)) {
            return tables.assigned_value(*source);
        }
    }
    UNREACHED
}

// "at array a and index v the value of any source that reaches a with index value v, and 0 where there is none": reach goes both ways, so
// what the array term reaches is spread once.
pub fn value_at(tables: &Tables, array: usize, index: u64) -> u64
    requires within { Within tables.now.edges tables.now.counts.edges (sources_in tables.now) tables.now.counts.arrays }
    requires inside { array < tables.now.counts.arrays }
    ensures { ValueOf (opens_in tables.now) (sources_in tables.now) tables.now.counts.arrays array index result }
{
    let row = reach::reached_from(tables, index, array);
    value_from(tables, row, index)
}

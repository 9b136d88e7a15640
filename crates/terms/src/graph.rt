// The rows of reads, sources and edges, taken apart; an edge's guard is read through the guess.
ghost use Rattle.std.specs.Prelude.{◌≡◌, ◌<◌, ◌/◌, ◌%◌, get_or};
ghost use Rattle.paper.specs.Sizes.{max_bases};
ghost use Rattle.terms.specs.Tables.{fixed_in, source_row, edge_row};
ghost use Rattle.terms.specs.Graph.{shut_to, open_in, may_open, edges_found};

use crate::{FIXED_MARK, Tables};

// What opens a row of the edges: a write's index differs, a conditional's Boolean chooses, an equality's Boolean is true. A part of a number,
// as a row is, and `edge_row` takes every number below 64: an enum would be made again of it wherever a row is opened.
pub const DIFFERS: u32 = 0;

pub const CHOOSES: u32 = 1;

pub const EQUATES: u32 = 2;

// A row is one number, since `Column` and `Graphed` speak of lists of numbers, and docs/PROMISES.md promises these functions of numbers.
// A source in one number: its origin, its index and its value.
pub fn source_row(origin: usize, index: usize, value: usize) -> u32
    ensures { result ≡ source_row origin index value }
{
    let low = (origin % 256) as u32;
    let middle = (index % 256) as u32;
    let high = (value % 256) as u32;
    low + 256 * middle + 65536 * high
}

// An edge in one number: its ends, the other branch of a conditional, and what opens it.
pub fn edge_row(left: usize, right: usize, other: usize, number: usize, guard: u32) -> u32
    requires { guard < 64 }
    ensures { result ≡ edge_row left right other number guard }
{
    let a = (left % 64) as u32;
    let b = (right % 64) as u32;
    let c = (other % 64) as u32;
    let d = (number % 256) as u32;
    a + 64 * b + 4096 * c + 262144 * d + 67108864 * guard
}

pub fn origin_of(row: u32) -> usize
    ensures { result ≡ row % 256 }
{
    (row % 256) as usize
}

pub fn index_of(row: u32) -> usize
    ensures { result ≡ row / 256 % 256 }
{
    (row / 256 % 256) as usize
}

pub fn value_of(row: u32) -> usize
    ensures { result ≡ row / 65536 % 256 }
{
    (row / 65536 % 256) as usize
}

// The ends of an edge's row; of a conditional's, the second is its first branch.
pub fn left_of(row: u32) -> usize
    ensures { result ≡ row % 64 }
{
    (row % 64) as usize
}

pub fn right_of(row: u32) -> usize
    ensures { result ≡ row / 64 % 64 }
{
    (row / 64 % 64) as usize
}

pub fn other_of(row: u32) -> usize
    ensures { result ≡ row / 4096 % 64 }
{
    (row / 4096 % 64) as usize
}

// The number of the term that opens an edge's row, and what opens it.
fn number_of(row: u32) -> usize
    ensures { result ≡ row / 262144 % 256 }
{
    (row / 262144 % 256) as usize
}

fn opener_of(row: u32) -> u32
    ensures { result ≡ row / 67108864 }
{
    row / 67108864
}

// What opens an edge, by its guard: a write's index differs from the index value; a Boolean is true, or false.
#[derive(Clone, Copy)]
pub enum Guard {
    Differ(usize),
    IsTrue(usize),
    IsFalse(usize),
}

// An edge that is open: its ends, and by which guard.
#[derive(Clone, Copy)]
pub struct Edge {
    pub left: usize,
    pub right: usize,
    pub guard: Guard,
}

impl Tables {
    // The index value of a source's row.
    pub fn index_value(&self, row: u32) -> u64
        ensures { result ≡ get_or self.now.values (row / 256 % 256) 0 }
    {
        self.values[index_of(row)]
    }

    // The value assigned to a source's row: 01 has a word for each of the two.
    pub fn assigned_value(&self, row: u32) -> u64
        ensures { result ≡ get_or self.now.values (row / 65536 % 256) 0 }
    {
        self.values[value_of(row)]
    }

    // Is a base term a fixed number?
    pub fn is_fixed(&self, base: usize) -> bool
        requires { base < max_bases }
        ensures { result ≡ fixed_in self.now.reads base }
    {
        self.reads[base] == FIXED_MARK
    }

    // Is the row a write's whose index has value x? It is closed to x then. No other row is closed to one index value and open to another.
    pub fn shuts(&self, x: u64, row: u32) -> bool
        ensures { result ≡ shut_to self.now.values x row }
    {
        let number = number_of(row);
        opener_of(row) == DIFFERS && self.values[number] == x
    }

    // The rule of openness, by the truths alone: what a row joins to those index values that do not shut it.
    pub fn may_open(&self, row: u32) -> Option<Edge>
        ensures { edges_found result ≡ may_open self.now.truths row }
    {
        let left = left_of(row);
        let right = right_of(row);
        let number = number_of(row);
        let opener = opener_of(row);
        if opener == DIFFERS {
            let guard = Guard::Differ(number);
            return Some(Edge { left, right, guard });
        }
        let truth = self.truths[number % 64];
        if truth == 1 {
            let guard = Guard::IsTrue(number);
            return Some(Edge { left, right, guard });
        }
        if opener == CHOOSES {
            let right = other_of(row);
            let guard = Guard::IsFalse(number);
            return Some(Edge { left, right, guard });
        }
        None
    }

    // The rule of openness, for one row of the edges: the edge that is open to an index value, if there is one. The index value is given with each
    // row, and no struct holds it with the tables: it changes while they stay.
    pub fn open(&self, x: u64, row: u32) -> Option<Edge>
        ensures { edges_found result ≡ open_in self.now.values self.now.truths x row }
    {
        if self.shuts(x, row) {
            return None;
        }
        self.may_open(row)
    }
}

// Marks: which array terms each source reaches over the edges open to its index value, and how many pairs that makes.
#![tactic(auto)]

mod marks;

ghost use Rattle.std.specs.Prelude.{◌≡◌, ℕ, ◌^◌, ◌<◌, false, eqb, get_or, replicate};
ghost use Rattle.paper.specs.Sizes.{max_arrays};
ghost use Rattle.terms.specs.Tables.{edges_in};
ghost use Rattle.terms.specs.Graph.{Each};
ghost use Rattle.reach.specs.Reached.{bit, opens_in, sources_in, rows_in, links_in, RowOf, Marked};
ghost use Rattle.reach.specs.Steps.{EndsBelow, Lent, Adjacent, bit_set, edge_set, may_at, Apart, Gathered, RowTurned, Turnable, Spreads, SharedOrMade, Markable, Unmarked, ValueMarkedOver};

pub use marks::Mark;
use paper::MAX_ARRAYS;
use terms::Tables;
use terms::graph::{left_of, origin_of, right_of};

// A row, and how many array terms it marks.
#[derive(Clone, Copy)]
pub struct Spread {
    pub row: u64,
    pub marked: usize,
}

// A row has a bit for each array term: three numbers of sixteen bits, which a mark keeps. No accepted query has more than 302 sources (meaning,
// proofs/Sources.antt), and so the rows of any are 1,812 bytes of its marks.
pub const ROW_PARTS: usize = 3;

pub const MAX_ROWS: usize = 302;

pub const MAX_PARTS: usize = MAX_ROWS * ROW_PARTS;

// Does an array term stand in a row, or in a word? (It is a number that these are shifted by, so its bound is a clause.)
pub fn stands_in(row: u64, array: usize) -> bool
    requires { array < max_arrays }
    ensures { result ≡ eqb (bit row array) 1 }
{
    (row >> array) % 2 == 1
}

// Puts bit b into word a, or takes it out: `bit_set` is one definition over both.
fn set_bit(words: &mut [u64; MAX_ARRAYS], a: usize, b: usize, on: bool)
    requires { (a < max_arrays) × (b < max_arrays) }
    ensures { words.new ≡ bit_set on words.old a b }
{
    let mark = 1u64 << b;
    let with = words[a] | mark;
    words[a] = if on { with } else { with ^ mark };
}

// Puts an edge into the words of both its ends, or takes it out: it can be walked both ways. The words stay an array, of which this is
// promised; that each is below 2^48 is said where they are read.
pub fn set_edge(words: &mut [u64; MAX_ARRAYS], left: usize, right: usize, on: bool)
    requires { (left < max_arrays) × (right < max_arrays) }
    ensures { words.new ≡ edge_set on left right words.old }
{
    set_bit(words, left, right, on);
    set_bit(words, right, left, on);
}

// One word for each array term, with a bit for each neighbour over an edge open to index value x; the words come cleared.
fn adjacency(tables: &Tables, x: u64, words: &mut [u64; MAX_ARRAYS])
    requires { Lent tables.now.edges tables.now.counts.edges max_arrays × (words.old ≡ replicate max_arrays 0) }
    ensures { Adjacent (opens_in tables.now x) words.new }
{
    let count = tables.counts.edges as usize;
    for &row in &tables.edges[..count] {
        if let Some(edge) = tables.open(x, row) {
            set_edge(words, edge.left, edge.right, true);
        }
    }
}

// The words of all that may be open, by the truths alone; the words come cleared. Answers whether a row joins what an earlier one joins.
fn gather(tables: &Tables, words: &mut [u64; MAX_ARRAYS]) -> bool
    requires { Lent tables.now.edges tables.now.counts.edges max_arrays × (words.old ≡ replicate max_arrays 0) }
    ensures { Gathered tables.now.truths tables.now.edges tables.now.counts.edges words.new result }
{
    let mut again = false;
    let count = tables.counts.edges as usize;
    for &row in &tables.edges[..count] {
        if let Some(edge) = tables.may_open(row) {
            if stands_in(words[edge.left], edge.right) {
                again = true;
            }
            set_edge(words, edge.left, edge.right, true);
        }
    }
    again
}

// A row on the turn from index value `before` to x: a write that x shuts is taken out, and one that `before` had shut is put.
fn turn_row(tables: &Tables, before: u64, x: u64, row: u32, words: &mut [u64; MAX_ARRAYS])
    requires { Each (EndsBelow max_arrays) (edges_in row) }
    ensures { RowTurned tables.now.values before x row words.old words.new }
{
    let left = left_of(row);
    let right = right_of(row);
    if tables.shuts(x, row) {
        set_edge(words, left, right, false);
    } else if tables.shuts(before, row) {
        set_edge(words, left, right, true);
    }
}

// Turns the words of the edges open to index value `before`, or of all that may be open, into those of the edges open to x. Only writes of
// these two index values differ. Where two rows may join the same array terms the words are made anew.
fn turn(tables: &Tables, again: bool, before: u64, x: u64, words: &mut [u64; MAX_ARRAYS])
    requires { Lent tables.now.edges tables.now.counts.edges max_arrays × (again ≡ false → Apart (may_at tables.now.truths tables.now.edges) tables.now.counts.edges) × Turnable tables.now.values tables.now.truths tables.now.edges tables.now.counts.edges before words.old }
    ensures { Adjacent (opens_in tables.now x) words.new }
{
    if again {
        *words = [0; MAX_ARRAYS];
        adjacency(tables, x, words);
        return;
    }
    let count = tables.counts.edges as usize;
    for &row in &tables.edges[..count] {
        turn_row(tables, before, x, row, words);
    }
}

// The propagation, after 002, figure 9. σ is the guess, i the index of the source that is carried, ρ(a) the sources that are carried to a.
//
//     I   ρ(b) has the sources whose origin is b                              Spreading.begun
//     D   in ρ(write(a, j, e)), and σ(i) ≠ σ(j): carried to a                 Words.one_more, from left to right
//     U   in ρ(a), and σ(i) ≠ σ(j): carried to write(a, j, e)                 Words.one_more, from right to left
//     R   in ρ(a), and σ(a = c) = ⊤: carried to c                             Words.one_more, from left to right
//     L   in ρ(c), and σ(a = c) = ⊤: carried to a                             Words.one_more, from right to left
//     C   two in ρ(a): their values are compared                              above this crate, by the rows: Rows.row_of
//
// A conditional is carried over as R and L are, to the branch that is chosen. D, U, R and L are repeated to the fixpoint
// (Spreading.spread_on, Spreading.finished): what is met and not yet marked is the frontier, and each array term is counted as it is marked.
fn spread_from(neighbours: &[u64; MAX_ARRAYS], origin: usize) -> Spread
    requires { (origin < max_arrays) × ((a : ℕ) → get_or neighbours.now a 0 < 2 ^ 48) }
    ensures { Spreads neighbours.now origin result }
{
    let mut met = 1u64 << origin;
    let mut row = 0u64;
    let mut marked = 0usize;
    while row != met {
        let frontier = met ^ row;
        let a = frontier.trailing_zeros() as usize;
        let mark = 1u64 << a;
        row |= mark;
        marked += 1;
        met |= neighbours[a];
    }
    Spread { row, marked }
}

// The row of an origin: the last one made for its index value, where the origin stands in that, and else a new one.
fn share_or_spread(neighbours: &[u64; MAX_ARRAYS], last: Spread, origin: usize) -> Spread
    requires { (origin < max_arrays) × ((a : ℕ) → get_or neighbours.now a 0 < 2 ^ 48) }
    ensures { SharedOrMade neighbours.now last origin result }
{
    if stands_in(last.row, origin) {
        last
    } else {
        spread_from(neighbours, origin)
    }
}

// Marks and links every source of the index value of source `first`, which is the first of them, and counts their pairs.
fn mark_value(
    neighbours: &[u64; MAX_ARRAYS],
    tables: &Tables,
    first: usize,
    marks: &mut [Mark],
) -> usize
    requires { Markable neighbours.now (sources_in tables.now) first (rows_in marks.old) (links_in marks.old) }
    ensures { ValueMarkedOver neighbours.now (sources_in tables.now) first (rows_in marks.old) (rows_in marks.new) (links_in marks.old) (links_in marks.new) result }
{
    let count = tables.counts.sources as usize;
    let begun = tables.sources[first];
    let x = tables.index_value(begun);
    let origin = origin_of(begun);
    let mut made = spread_from(neighbours, origin);
    let mut pairs = made.marked;
    let mut last = first;
    // By the number, which is what a link is.
    for t in first + 1..count {
        let source = tables.sources[t];
        if tables.index_value(source) == x {
            marks[last].set_row(made.row);
            marks[last].next = t as u16;
            let origin = origin_of(source);
            made = share_or_spread(neighbours, made, origin);
            pairs += made.marked;
            last = t;
        }
    }
    let end = &mut marks[last];
    end.set_row(made.row);
    end.next = count as u16;
    pairs
}

// Marks from every source's origin over the edges open to its index value, to the fixpoint and in both directions; links each source to
// the next of its index value, where a source that has none is not yet marked; answers the number of pairs. A link is 16 bits: 0 for none
// yet, and the count for no next one, where an `Option` would take 32.
pub fn mark(tables: &Tables, marks: &mut [Mark]) -> usize
    requires { Unmarked tables.now.edges tables.now.counts.edges (sources_in tables.now) tables.now.counts.arrays (rows_in marks.old) (links_in marks.old) }
    ensures { Marked (opens_in tables.now) (sources_in tables.now) tables.now.counts.arrays (rows_in marks.new) (links_in marks.new) result }
{
    let mut pairs = 0;
    // Any index value will do at first: the words are of all that may be open, so that nothing that it had shut is missing.
    let mut value = 0;
    let mut neighbours = [0; MAX_ARRAYS];
    let again = gather(tables, &mut neighbours);
    let count = tables.counts.sources as usize;
    for (first, &source) in tables.sources[..count].iter().enumerate() {
        if marks[first].next == 0 {
            let x = tables.index_value(source);
            turn(tables, again, value, x, &mut neighbours);
            value = x;
            pairs += mark_value(&neighbours, tables, first, marks);
        }
    }
    pairs
}

// The row of one array term: what is reached from it over the edges open to index value x.
pub fn reached_from(tables: &Tables, x: u64, array: usize) -> u64
    requires { Lent tables.now.edges tables.now.counts.edges tables.now.counts.arrays × (array < tables.now.counts.arrays) }
    ensures { RowOf (opens_in tables.now) tables.now.counts.arrays x array result }
{
    let mut neighbours = [0; MAX_ARRAYS];
    adjacency(tables, x, &mut neighbours);
    spread_from(&neighbours, array).row
}

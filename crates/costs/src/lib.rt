// The distances between array terms (02, E6): what the cheapest walk costs, a write 49 and any other edge 1. Each array term is settled once.
#![tactic(auto)]

ghost use Rattle.std.specs.Prelude.{ℕ, ◌≡◌, ◌^◌, ◌<◌, ◌≤◌, [], replicate, get_or, set};
ghost use Rattle.paper.specs.Sizes.{max_arrays};
ghost use Rattle.reach.specs.Reached.{opens_in};
ghost use Rattle.reach.specs.Steps.{Lent};
ghost use Rattle.costs.specs.Distances.{Distances};
ghost use Rattle.costs.specs.Levels.{Sorted, Narrow, LevelPut, AheadOf, NextMet, DistancesFrom};

use paper::MAX_ARRAYS;
use reach::set_edge;
use terms::Tables;
use terms::graph::Guard;

// What a step over a write costs, where any other costs 1; and how many distances the table of distances tells apart.
pub const WRITE_COST: u16 = 49;

pub const ENTRIES: u16 = 128;

// The words of the open edges, as adjacency has them: those of writes apart, and those of all others.
#[derive(Drop)]
struct Steps {
    cheap: [u64; MAX_ARRAYS],
    writes: [u64; MAX_ARRAYS],
}

// What lies one step beyond a level: over an edge that is no write, and over a write.
#[derive(Clone, Copy)]
struct Beyond {
    cheap: u64,
    written: u64,
}

// What waits, over the writes of each level, with its distance. Two runs: one of pairs proves too, and takes a conflict 7% longer (the median
// of 42 classes of queries), which the two runs do not.
#[derive(Drop)]
struct Waiting {
    levels: [u64; MAX_ARRAYS],
    distances: [u16; MAX_ARRAYS],
}

// What is seen on the next distance, and how many of what waits are taken then.
#[derive(Clone, Copy)]
struct Next {
    seen: u64,
    distance: u16,
    taken: usize,
}

impl Waiting {
    // Lets a level wait at a place.
    fn store(&mut self, at: usize, level: u64, distance: u16)
        requires { at < max_arrays }
        ensures levels { self.new.levels ≡ set self.old.levels at level }
        ensures distances { self.new.distances ≡ set self.old.distances at distance }
    {
        self.levels[at] = level;
        self.distances[at] = distance;
    }

    // What is met next: all that is ahead, one step on; where nothing new is ahead, or at that distance too, what waits first.
    fn meet(&self, seen: u64, ahead: u64, distance: u16, taken: usize) -> Next
        requires { (taken < max_arrays) × (distance < u16.MAX) }
        ensures { NextMet self.now.levels self.now.distances seen ahead distance taken result }
    {
        let near = seen | ahead;
        let over = self.distances[taken];
        let next = if near == seen { over } else { distance + 1 };
        if next == over {
            return Next {
                seen: near | self.levels[taken],
                distance: next,
                taken: taken + 1,
            };
        }
        Next {
            seen: near,
            distance: next,
            taken,
        }
    }
}

impl Steps {
    // Puts the edges open to index value x into the words, which come cleared.
    fn sort_edges(&mut self, tables: &Tables, x: u64)
        requires lent { Lent tables.now.edges tables.now.counts.edges max_arrays }
        requires cleared { (self.old.cheap ≡ replicate max_arrays 0) × (self.old.writes ≡ replicate max_arrays 0) }
        ensures { Sorted (opens_in tables.now x) self.new.cheap self.new.writes }
    {
        let count = tables.counts.edges as usize;
        for row in &tables.edges[..count] {
            if let Some(edge) = tables.open(x, *row) {
                match edge.guard {
                    Guard::Differ(_) => set_edge(&mut self.writes, edge.left, edge.right, true),
                    Guard::IsTrue(_) | Guard::IsFalse(_) => {
                        set_edge(&mut self.cheap, edge.left, edge.right, true);
                    }
                }
            }
        }
    }

    // Gives each array term of a level its entry, and answers what lies beyond the level.
    fn put_level(&self, level: u64, entry: u8, row: &mut [u8; MAX_ARRAYS]) -> Beyond
        requires small { level < 2 ^ 48 }
        requires narrow { Narrow self.now.cheap × Narrow self.now.writes }
        ensures put { LevelPut level entry row.old row.new }
        ensures cheap { AheadOf self.now.cheap level result.cheap }
        ensures written { AheadOf self.now.writes level result.written }
    {
        let mut left = level;
        let mut beyond = Beyond {
            cheap: 0,
            written: 0,
        };
        while left != 0 {
            let a = left.trailing_zeros() as usize;
            left &= left - 1;
            row[a] = entry;
            beyond.cheap |= self.cheap[a];
            beyond.written |= self.writes[a];
        }
        beyond
    }

    // The distances from one array term, each settled once: a level is what is met for the first time at one distance. Edges that are no
    // writes are walked as far as they lead; then one write further, from the levels in their order. What lies over the writes of a level
    // waits with its distance, in runs that are lent; where that is also the next distance over the other edges, both are one level.
    fn distances_from(&self, origin: usize, waiting: &mut Waiting) -> [u8; MAX_ARRAYS]
        requires inside { origin < max_arrays }
        requires narrow { Narrow self.now.cheap × Narrow self.now.writes }
        ensures { DistancesFrom self.now.cheap self.now.writes origin result }
    {
        let mut row = [255u8; MAX_ARRAYS];
        let mut seen = 1u64 << origin;
        let begun = self.put_level(seen, 0, &mut row);
        let mut ahead = begun.cheap;
        waiting.store(0, begun.written, WRITE_COST);
        let mut distance = 0u16;
        let mut put = 1usize;
        let mut taken = 0usize;
        while taken < put {
            let next = waiting.meet(seen, ahead, distance, taken);
            let level = next.seen ^ seen;
            ahead = 0;
            if level != 0 {
                let entry = (next.distance % ENTRIES) as u8;
                let beyond = self.put_level(level, entry, &mut row);
                ahead = beyond.cheap;
                waiting.store(put, beyond.written, next.distance + WRITE_COST);
                put += 1;
            }
            seen = next.seen;
            distance = next.distance;
            taken = next.taken;
        }
        row
    }
}

// The distances from each array term to each, over the edges open to index value x, into a table of 48 rows that is lent: each with 255
// where there is no walk: a table of `Option`s would take twice its 2,304 bytes. The rows of numbers that are no array terms stay.
// An edge's ends differ in their distance by its cost at the most, so that the last seven bits of a distance tell all that the path asks.
pub fn put_distances(tables: &Tables, x: u64, table: &mut [[u8; MAX_ARRAYS]; MAX_ARRAYS])
    requires { Lent tables.now.edges tables.now.counts.edges tables.now.counts.arrays }
    ensures rows { Distances (opens_in tables.now) x tables.now.counts.arrays table.new }
    ensures rest { (a : ℕ) → tables.now.counts.arrays ≤ a → get_or table.new a [] ≡ get_or table.old a [] }
{
    let mut steps = Steps {
        cheap: [0; MAX_ARRAYS],
        writes: [0; MAX_ARRAYS],
    };
    steps.sort_edges(tables, x);
    let mut waiting = Waiting {
        levels: [0; MAX_ARRAYS],
        distances: [0; MAX_ARRAYS],
    };
    let arrays = tables.counts.arrays as usize;
    for a in 0..arrays {
        table[a] = steps.distances_from(a, &mut waiting);
    }
}

// The same as an array of 48 arrays, as docs/PROMISES.md promises it.
pub fn distances(tables: &Tables, x: u64) -> [[u8; MAX_ARRAYS]; MAX_ARRAYS]
    requires { Lent tables.now.edges tables.now.counts.edges tables.now.counts.arrays }
    ensures { Distances (opens_in tables.now) x tables.now.counts.arrays result }
{
    let mut table = [[255u8; MAX_ARRAYS]; MAX_ARRAYS];
    put_distances(tables, x, &mut table);
    table
}

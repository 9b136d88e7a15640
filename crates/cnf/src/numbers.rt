// The numbers of variables (01, The clauses), and the run of signed numbers that is lent for the clauses.
ghost use Rattle.std.specs.Prelude.{◌≡◌, ◌+◌, ◌*◌, ◌<◌, ◌≤◌, pos};
ghost use Rattle.paper.specs.Sizes.{max_bases, max_booleans};

// What numbers the variables: the bits of a base term, and how many base terms and Booleans there are. Three numbers that stay the same, and no part of
// the run, which moves on. What keeps every variable's number small: "At most .. 256 base terms, 64 Booleans", and at most 64 bits.
#[derive(Clone, Copy)]
pub struct Sizes {
    pub width: usize,
    pub bases: usize,
    pub booleans: usize,
    ghost small: { (width ≤ 64) × (bases ≤ max_bases) × (booleans ≤ max_booleans) },
}

// The lowest variable: 0 closes a clause.
pub const FIRST: usize = 1;

impl Sizes {
    // "Bit k of base term b (0 lowest) is variable 32b+k+1; Boolean m is 32B+m+1; fresh ones follow": all are so many bits above a base term,
    // at most 64 Booleans and 3200 fresh ones. "not" a variable is its number reversed.
    pub fn variable(self, term: usize, above: usize) -> i32
        requires { (term ≤ 256) × (above ≤ 3264) }
        ensures { (result ≡ pos (self.width * term + above + 1)) × (self.width * term + above + 1 < 2147483648) }
    {
        (self.width * term + above + FIRST) as i32
    }

    // "fresh ones follow": the fresh variable n, counted from 0.
    pub fn fresh_variable(self, n: usize) -> i32
        requires { n ≤ 3200 }
        ensures { (result ≡ pos (self.width * self.bases + self.booleans + n + 1)) × (self.width * self.bases + self.booleans + n + 1 < 2147483648) }
    {
        self.variable(self.bases, self.booleans + n)
    }
}

// The run of numbers that is lent, and the place of the next one.
#[derive(Drop)]
pub struct Run<'a> {
    pub numbers: &'a mut [i32],
    pub at: usize,
}

impl Run<'_> {
    ghost use Rattle.cnf.specs.Parts.{Room, Wrote};

    // Stores numbers, one after another: `copy_from_slice` takes a quarter longer for three or four of them.
    pub fn put(&mut self, piece: &[i32])
        requires { Room self.old piece.now }
        ensures { Wrote self.old self.new piece.now }
    {
        for &number in piece {
            self.numbers[self.at] = number;
            self.at += 1;
        }
    }
}

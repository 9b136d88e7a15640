// The public functions: a check of one query, a lookup of one cell of its model, the cells of one array, and its clauses. They take any bytes
// and any lent buffer. Each owns the tables of its call, and lends them.
#![tactic(auto)]

mod checking;
mod listing;
mod looking;
mod writing;

pub use checking::check;
pub use listing::cells;
pub use looking::lookup;
pub use writing::clauses;

// What an accepted query is: consistent, with the pairs; or a conflict, with the pairs and the length of the lemma.
#[derive(Clone, Copy, Debug, PartialEq, Eq)]
pub enum Verdict {
    Consistent { pairs: usize },
    Conflict { pairs: usize, length: usize },
}

// What the clause writer answers: the variables, the clauses and how many numbers were written.
#[derive(Clone, Copy, Debug, PartialEq, Eq)]
pub struct Totals {
    pub variables: usize,
    pub clauses: usize,
    pub count: usize,
}

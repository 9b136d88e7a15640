// The clauses of a lemma (01, The clauses), over the width of a base term: how many there are, clause n, and all of them, as signed 32-bit
// numbers into a run that the caller lends. Who calls has tested the sizes.
#![tactic(auto)]

ghost use Rattle.std.specs.Prelude.{◌≡◌, ℕ, ◌+◌, ◌<◌, ◌≤◌, length, MatchOption};
ghost use Rattle.paper.specs.Sizes.{max_bases, max_booleans, max_literals};
ghost use Rattle.paper.specs.Answers.{written_over};
ghost use Rattle.paper.specs.Clauses.{named_clauses, clauses_of, fresh_count, run};
ghost use Rattle.cnf.specs.Parts.{Put, Wrote, Room, all_of, linking_of, clause_of};
ghost use Rattle.lemma.specs.Rows.{literals_of};

use lemma::Literal;
use literal::{Part, Rank, clause_count, freshes, rank_of};
use numbers::{Run, Sizes};
use placed::Placed;

mod literal;
mod numbers;
mod placed;

// That part of what each literal brings, "in lemma order".
fn put_each(sizes: Sizes, literals: &[Literal], part: Part, run: &mut Run)
    requires { (length literals.now ≤ max_literals) × Room run.old (all_of sizes part literals.now) }
    ensures { Wrote run.old run.new (all_of sizes part literals.now) }
{
    let mut fresh = 0;
    for &literal in literals {
        let placed = Placed { literal, fresh };
        placed.put_part(sizes, part, run);
        fresh += freshes(literal, sizes.width);
    }
}

// "Last one linking clause: each Boolean literal reversed, in lemma order, then all d, then all e."
fn put_linking(sizes: Sizes, literals: &[Literal], run: &mut Run)
    requires { (length literals.now ≤ max_literals) × Room run.old (linking_of sizes literals.now) }
    ensures { Wrote run.old run.new (linking_of sizes literals.now) }
{
    put_each(sizes, literals, Part::Links(Rank::Boolean), run);
    put_each(sizes, literals, Part::Links(Rank::Difference), run);
    put_each(sizes, literals, Part::Links(Rank::Agreement), run);
    run.put(&[0]);
}

// All clauses, from the start of the run; answers how many numbers they are. The caller has the numbers, which become `Sizes` and `Run` at once;
// its literals are a slice of which a clause says that it has at most 49, since a type would ask more.
pub fn put_clauses(
    literals: &[Literal],
    bases: usize,
    booleans: usize,
    width: usize,
    numbers: &mut [i32],
) -> usize
    requires { (length literals.now ≤ max_literals) × (bases ≤ max_bases) × (booleans ≤ max_booleans) × (width ≤ 64) × (length (run (clauses_of width bases booleans (literals_of literals.now))) ≤ length numbers.old) }
    ensures written { numbers.new ≡ written_over numbers.old (run (clauses_of width bases booleans (literals_of literals.now))) }
    ensures count { result ≡ length (run (clauses_of width bases booleans (literals_of literals.now))) }
{
    let sizes = Sizes {
        width,
        bases,
        booleans,
    };
    let mut run = Run { numbers, at: 0 };
    put_each(sizes, literals, Part::Clauses, &mut run);
    put_linking(sizes, literals, &mut run);
    run.at
}

// Clause n of the literals, counted from 0 and closed by 0: each literal that compares has its clauses in turn, two for each bit. After all
// of those the linking clause is the last, and that is none of theirs.
fn bit_clause(sizes: Sizes, literals: &[Literal], n: usize) -> Option<[i32; 4]>
    requires { (length literals.now ≤ max_literals) × (n < length (named_clauses sizes.width (literals_of literals.now))) }
    ensures { MatchOption result (clause_of sizes.width sizes.bases sizes.booleans literals.now n ≡ linking_of sizes literals.now) (λ clause. clause ≡ clause_of sizes.width sizes.bases sizes.booleans literals.now n) }
{
    let mut left = n;
    let mut fresh = 0;
    for &literal in literals {
        let clauses = clause_count(literal, sizes.width);
        if left < clauses {
            let placed = Placed { literal, fresh };
            let two = placed.bit_clauses(sizes, left / 2);
            return Some(two[left % 2]);
        }
        left -= clauses;
        fresh += freshes(literal, sizes.width);
    }
    None
}

// Clause n, counted from 0, closed by 0, from a place on; answers the next place.
pub fn put_clause(
    literals: &[Literal],
    bases: usize,
    booleans: usize,
    width: usize,
    n: usize,
    numbers: &mut [i32],
    at: usize,
) -> usize
    requires { (length literals.now ≤ max_literals) × (bases ≤ max_bases) × (booleans ≤ max_booleans) × (width ≤ 64) × (n < length (clauses_of width bases booleans (literals_of literals.now))) × (at + length (clause_of width bases booleans literals.now n) ≤ length numbers.old) }
    ensures { Put numbers.old numbers.new at result (clause_of width bases booleans literals.now n) }
{
    let sizes = Sizes {
        width,
        bases,
        booleans,
    };
    let mut run = Run { numbers, at };
    match bit_clause(sizes, literals, n) {
        Some(clause) => run.put(&clause),
        None => put_linking(sizes, literals, &mut run),
    }
    run.at
}

// How many clauses, fresh variables and numbers there are.
#[derive(Clone, Copy)]
pub struct ClauseCounts {
    pub clauses: usize,
    pub fresh: usize,
    pub numbers: usize,
}

// "With y 'equal' and z e's there are 64(y+z)+1 clauses and 32y+z fresh variables."
pub fn counts(literals: &[Literal], width: usize) -> ClauseCounts
    requires { (length literals.now ≤ max_literals) × (width ≤ 64) }
    ensures clauses { (bases booleans : ℕ) → result.clauses ≡ length (clauses_of width bases booleans (literals_of literals.now)) }
    ensures fresh { result.fresh ≡ fresh_count width (literals_of literals.now) }
    ensures numbers { (bases booleans : ℕ) → result.numbers ≡ length (run (clauses_of width bases booleans (literals_of literals.now))) }
{
    let mut clauses = 0;
    let mut fresh = 0;
    let mut booleans = 0;
    for &literal in literals {
        clauses += clause_count(literal, width);
        fresh += freshes(literal, width);
        booleans += usize::from(rank_of(literal) == Rank::Boolean);
    }
    // Four numbers for each clause of a bit; the linking clause has each Boolean literal, each fresh variable and its 0.
    let numbers = 4 * clauses + booleans + fresh + 1;
    let clauses = clauses + 1;
    ClauseCounts {
        clauses,
        fresh,
        numbers,
    }
}

// The clause writer: the clauses of the lemma of a query in conflict.
ghost use Rattle.std.specs.Prelude.{List, ℕ};
ghost use Rattle.front.specs.Fronted.{Judged, JudgedOn};
ghost use Rattle.checker.specs.Reports.{WriteAllows};

use crate::Totals;
use front::{Ruling, judge, pair_literals};
use lemma::Literals;
use paper::{Reason, Refusal, WIDTH};
use terms::Tables;

// The answer of the clause writer, once there is a ruling: 12, then 10.
fn write(tables: &Tables, ruling: Ruling, numbers: &mut [i32]) -> Result<Totals, Refusal>
    requires { JudgedOn tables.now ruling }
    ensures { (bytes : List ℕ) → Judged bytes tables.now ruling → WriteAllows bytes numbers.old numbers.new result }
{
    let Some((first, later)) = ruling.found else {
        return Err(Refusal::whole(Reason::OtherVerdict));
    };
    let mut literals = Literals::EMPTY;
    pair_literals(tables, first, later, &mut literals);
    let totals = cnf::counts(literals.rows(), WIDTH);
    if numbers.len() < totals.numbers {
        return Err(Refusal::whole(Reason::NoRoom));
    }
    let bases = tables.counts.bases as usize;
    let booleans = tables.counts.booleans as usize;
    let count = cnf::put_clauses(literals.rows(), bases, booleans, WIDTH, numbers);
    Ok(Totals {
        variables: WIDTH * bases + booleans + totals.fresh,
        clauses: totals.clauses,
        count,
    })
}

// Writes the clauses of a query in conflict: a run of signed numbers, each clause closed by 0.
pub fn clauses(query: &[u8], numbers: &mut [i32]) -> Result<Totals, Refusal>
    ensures { WriteAllows query.now numbers.old numbers.new result }
{
    let mut tables = Tables::EMPTY;
    let ruling = judge(query, &mut tables)?;
    write(&tables, ruling, numbers)
}

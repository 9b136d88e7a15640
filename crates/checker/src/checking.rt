// The check: whether any memories fit the guess, and the bytes of the lemma where none do.
ghost use Rattle.std.specs.Prelude.{List, ℕ};
ghost use Rattle.front.specs.Fronted.{Judged, JudgedOn};
ghost use Rattle.checker.specs.Reports.{CheckAllows};

use crate::Verdict;
use front::{Ruling, judge, pair_literals};
use lemma::{Literals, lemma_length, put_lemma};
use paper::{Reason, Refusal};
use terms::Tables;

// The answer of a check, once there is a ruling.
fn conclude(tables: &Tables, ruling: Ruling, answer: &mut [u8]) -> Result<Verdict, Refusal>
    requires { JudgedOn tables.now ruling }
    ensures { (bytes : List ℕ) → Judged bytes tables.now ruling → CheckAllows bytes answer.old answer.new result }
{
    let pairs = ruling.pairs;
    let Some((first, later)) = ruling.found else {
        return Ok(Verdict::Consistent { pairs });
    };
    let mut literals = Literals::EMPTY;
    pair_literals(tables, first, later, &mut literals);
    let length = lemma_length(literals.rows());
    if answer.len() < length {
        return Err(Refusal::whole(Reason::NoRoom));
    }
    let length = put_lemma(literals.rows(), answer);
    Ok(Verdict::Conflict { pairs, length })
}

// Checks a query: whether any memories fit its guess. In a conflict the lemma's bytes stand first in the answer buffer.
pub fn check(query: &[u8], answer: &mut [u8]) -> Result<Verdict, Refusal>
    ensures { CheckAllows query.now answer.old answer.new result }
{
    let mut tables = Tables::EMPTY;
    let ruling = judge(query, &mut tables)?;
    conclude(&tables, ruling, answer)
}

// The lookup: the value of one cell of the model (01, Sources, edges, reach).
ghost use Rattle.std.specs.Prelude.{List, ℕ};
ghost use Rattle.front.specs.Fronted.{Judged, JudgedOn};
ghost use Rattle.checker.specs.Reports.{LookAllows};

use front::{Ruling, judge};
use paper::{NUMBERS, Reason, Refusal};
use terms::Tables;

// The answer of a lookup, once there is a ruling: 12, then 11.
fn look(tables: &Tables, ruling: Ruling, array: u64, index: u64) -> Result<u64, Refusal>
    requires { JudgedOn tables.now ruling }
    ensures { (bytes : List ℕ) → Judged bytes tables.now ruling → LookAllows bytes array index result }
{
    if let Some(_) = ruling.found {
        return Err(Refusal::whole(Reason::OtherVerdict));
    }
    if tables.counts.arrays as u64 <= array {
        return Err(Refusal::whole(Reason::NoCell));
    }
    if NUMBERS <= index {
        return Err(Refusal::whole(Reason::NoCell));
    }
    Ok(model::value_at(tables, array as usize, index))
}

// Looks one cell of the model up: the value at an array term and an index.
pub fn lookup(query: &[u8], array: u64, index: u64) -> Result<u64, Refusal>
    ensures { LookAllows query.now array index result }
{
    let mut tables = Tables::EMPTY;
    let ruling = judge(query, &mut tables)?;
    look(&tables, ruling, array, index)
}

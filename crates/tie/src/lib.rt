// The contracts, tied to the theorems: each function here calls one public or exported function, asks nothing of its caller, and ensures the
// very words that the headline theorems are about. A `requires` that stood on one of them, or a contract that said less, would leave this
// crate unproved. It holds nothing to call.
#![tactic(auto)]

ghost use Rattle.std.specs.Prelude.{◌≡◌, length};
ghost use Rattle.meaning.proofs.Built.{AreBytes};
ghost use Rattle.checker.specs.Reports.{CheckAllows, LookAllows, ListAllows, WriteAllows};
ghost use Rattle.zunidelo.specs.Told.{CheckTells, LookTells, WriteTells};

use checker::{Totals, Verdict};
use paper::Refusal;

fn many(query: &[u8]) -> usize
    ensures { result ≡ length query.now }
{
    query.len()
}

// What the theorems suppose of a query holds of every slice that is lent: its elements are bytes. Answers how many.
pub fn lent_bytes(query: &[u8]) -> usize
    ensures { AreBytes query.now × (result ≡ length query.now) }
{
    many(query)
}

pub fn allowed_check(query: &[u8], answer: &mut [u8]) -> Result<Verdict, Refusal>
    ensures { CheckAllows query.now answer.old answer.new result }
{
    checker::check(query, answer)
}

pub fn allowed_lookup(query: &[u8], array: u64, index: u64) -> Result<u64, Refusal>
    ensures { LookAllows query.now array index result }
{
    checker::lookup(query, array, index)
}

pub fn allowed_clauses(query: &[u8], numbers: &mut [i32]) -> Result<Totals, Refusal>
    ensures { WriteAllows query.now numbers.old numbers.new result }
{
    checker::clauses(query, numbers)
}

pub fn allowed_cells(
    query: &[u8],
    array: u64,
    indices: &mut [u64],
    contents: &mut [u64],
) -> Result<usize, Refusal>
    ensures { ListAllows query.now array indices.old indices.new contents.old contents.new result }
{
    checker::cells(query, array, indices, contents)
}

pub fn told_check(query: &[u8], answer: &mut [u8], report: &mut [u64; 4]) -> u32
    ensures { CheckTells query.now answer.old answer.new report.new result }
{
    zunidelo::zunidelo_check(query, answer, report)
}

pub fn told_lookup(query: &[u8], array: u64, index: u64, report: &mut [u64; 4]) -> u32
    ensures { LookTells query.now array index report.new result }
{
    zunidelo::zunidelo_lookup(query, array, index, report)
}

pub fn told_clauses(query: &[u8], numbers: &mut [i32], report: &mut [u64; 5]) -> u32
    ensures { WriteTells query.now numbers.old numbers.new report.new result }
{
    zunidelo::zunidelo_clauses(query, numbers, report)
}

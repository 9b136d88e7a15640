// The static library that a program in C or Rust links (include/zunidelo.h): each export calls the function of its name in the crate
// `zunidelo`, states its clauses again, and asks nothing of its caller.
#![tactic(auto)]

ghost use Rattle.zunidelo.specs.Told.{CheckTells, LookTells, WriteTells};

// Checks a query. The report: number and offset of the refusal, pairs, length of the lemma.
#[unsafe(no_mangle)]
pub extern "C" fn zunidelo_check(query: &[u8], answer: &mut [u8], report: &mut [u64; 4]) -> u32
    ensures { CheckTells query.now answer.old answer.new report.new result }
{
    zunidelo::zunidelo_check(query, answer, report)
}

// Looks one cell of the model up. The report: number and offset of the refusal, the value, 0.
#[unsafe(no_mangle)]
pub extern "C" fn zunidelo_lookup(
    query: &[u8],
    array: u64,
    index: u64,
    report: &mut [u64; 4],
) -> u32
    ensures { LookTells query.now array index report.new result }
{
    zunidelo::zunidelo_lookup(query, array, index, report)
}

// Writes the clauses. The report: number and offset of the refusal, variables, clauses, how many numbers were written.
#[unsafe(no_mangle)]
pub extern "C" fn zunidelo_clauses(query: &[u8], numbers: &mut [i32], report: &mut [u64; 5]) -> u32
    ensures { WriteTells query.now numbers.old numbers.new report.new result }
{
    zunidelo::zunidelo_clauses(query, numbers, report)
}

// What a program in C or Rust is told (include/zunidelo.h): each function reports as numbers what the public function of its name answers. The crate
// `zunidelo_c` exports them.
#![tactic(auto)]

ghost use Rattle.zunidelo.specs.Told.{CheckTells, LookTells, WriteTells};

use checker::Verdict;

// What is returned beside a report: the verdict that the answer shows, a number since that is what C is told.
const CONSISTENT: u32 = 0;

const CONFLICT: u32 = 1;

const REFUSED: u32 = 2;

// Checks a query. The report: number and offset of the refusal, pairs, length of the lemma.
#[unsafe(no_mangle)]
pub extern "C" fn zunidelo_check(query: &[u8], answer: &mut [u8], report: &mut [u64; 4]) -> u32
    ensures { CheckTells query.now answer.old answer.new report.new result }
{
    match checker::check(query, answer) {
        Err(refusal) => {
            *report = [refusal.reason.number() as u64, refusal.offset as u64, 0, 0];
            REFUSED
        }
        Ok(Verdict::Consistent { pairs }) => {
            *report = [0, 0, pairs as u64, 0];
            CONSISTENT
        }
        Ok(Verdict::Conflict { pairs, length }) => {
            *report = [0, 0, pairs as u64, length as u64];
            CONFLICT
        }
    }
}

// Looks one cell of the model up. The report: number and offset of the refusal, the value, 0.
#[unsafe(no_mangle)]
pub extern "C" fn zunidelo_lookup(
    query: &[u8],
    array: u64,
    index: u64,
    report: &mut [u64; 4],
) -> u32
    ensures { LookTells query.now array index report.new result }
{
    match checker::lookup(query, array, index) {
        Err(refusal) => {
            *report = [refusal.reason.number() as u64, refusal.offset as u64, 0, 0];
            REFUSED
        }
        Ok(value) => {
            *report = [0, 0, value, 0];
            CONSISTENT
        }
    }
}

// Writes the clauses. The report: number and offset of the refusal, variables, clauses, how many numbers were written.
#[unsafe(no_mangle)]
pub extern "C" fn zunidelo_clauses(query: &[u8], numbers: &mut [i32], report: &mut [u64; 5]) -> u32
    ensures { WriteTells query.now numbers.old numbers.new report.new result }
{
    match checker::clauses(query, numbers) {
        Err(refusal) => {
            *report = [
                refusal.reason.number() as u64,
                refusal.offset as u64,
                0,
                0,
                0,
            ];
            REFUSED
        }
        Ok(totals) => {
            *report = [
                0,
                0,
                totals.variables as u64,
                totals.clauses as u64,
                totals.count as u64,
            ];
            CONFLICT
        }
    }
}

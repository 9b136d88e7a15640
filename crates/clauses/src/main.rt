// The clause program: one query on standard input, and its clauses on standard output.
#![tactic(auto)]

use checker::Totals;
use paper::MAX_NUMBERS;
use print::{Entry, PAGE, Page, QUERY_ROOM};

// "`p cnf` variables clauses", and "a clause per line with its 0"
fn print_clauses(
    page: &mut Page<'_, impl Print + Eprint>,
    numbers: &[i32; MAX_NUMBERS],
    totals: Totals,
) {
    writeln!(page, "p cnf {} {}", totals.variables, totals.clauses);
    for number in &numbers[..totals.count.min(MAX_NUMBERS)] {
        write!(page, "{}", Entry(*number));
    }
}

fn write(rt: &(impl Print + Eprint), query: &[u8]) {
    let mut bytes = [0u8; PAGE];
    let mut page = Page::new(rt, &mut bytes);
    let mut numbers = [0i32; MAX_NUMBERS];
    match checker::clauses(query, &mut numbers) {
        Err(refusal) => writeln!(page, "{refusal}"),
        Ok(totals) => print_clauses(&mut page, &numbers, totals),
    }
}

fn main(rt: HostRuntime) {
    let mut buffer = [0u8; QUERY_ROOM];
    if let Some(query) = print::whole_query(&rt, &mut rt.stdin(), &mut buffer) {
        write(&rt, query);
    }
}

// Loads each query of standard input, which stands behind its length of two bytes, and writes a line for each: `accepted`, or `refused`
// with number and offset. The queries and the lines that 01 fixes for them are made by tests/refusals.py.
#![tactic(auto)]

use print::{PAGE, Page};
use std::io::Read;
use terms::Tables;

// More than any query of the tests.
const ROOM: usize = 5000;

fn load_query(rt: &(impl Print + Eprint), query: &[u8]) {
    let mut bytes = [0u8; PAGE];
    let mut page = Page::new(rt, &mut bytes);
    let mut tables = Tables::EMPTY;
    match tables.load(query) {
        Ok(()) => writeln!(page, "accepted"),
        Err(refusal) => writeln!(page, "{refusal}"),
    }
}

// Takes one query: none where there is no other, or not all of it.
fn load_one(rt: &(impl Print + Eprint), input: &mut impl Read) -> Option<()> {
    let mut head = [0u8; 2];
    print::fill(input, &mut head, 2)?;
    let length = u16::from_be_bytes(head);
    let mut room = [0u8; ROOM];
    let query = print::fill(input, &mut room, usize::from(length))?;
    load_query(rt, query);
    Some(())
}

// A proved loop has to end, so it has a last turn.
fn main(rt: HostRuntime) {
    let mut input = rt.stdin();
    for _ in 0..65536 {
        if load_one(&rt, &mut input).is_none() {
            break;
        }
    }
}

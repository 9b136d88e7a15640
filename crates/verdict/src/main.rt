// The verdict program: one query on standard input, and 01's lines on standard output.
#![tactic(auto)]

use print::QUERY_ROOM;

fn main(rt: HostRuntime) {
    let mut buffer = [0u8; QUERY_ROOM];
    if let Some(query) = print::whole_query(&rt, &mut rt.stdin(), &mut buffer) {
        lines::verdict(&rt, query);
    }
}

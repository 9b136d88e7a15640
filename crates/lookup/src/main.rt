// The lookup program: one query on standard input, the cell in the file `cell.txt`, and its value on standard output.
#![tactic(auto)]

use print::{PAGE, Page, QUERY_ROOM};
use std::io::Read;
use std::rt::Files;
use std::{fs, str};

// The longest `cell.txt`: two lines, each of ten digits and a newline.
const ROOM: usize = 22;

const DIGITS: usize = 10;

// The cell that is looked up.
#[derive(Clone, Copy)]
struct Cell {
    array: u64,
    index: u64,
}

// What is looked up where `cell.txt` isn't two such lines: no query has an array of this number, so the refusal is 11, after 1 to 9 and 12.
const NOWHERE: Cell = Cell {
    array: u64::MAX,
    index: 0,
};

// "1 to 10 digits", of a number below 2^32.
fn number_of(line: &str) -> Option<u64> {
    if line.len() > DIGITS || !line.bytes().all(|byte| byte.is_ascii_digit()) {
        return None;
    }
    let number = line.parse::<u32>().ok()?;
    Some(u64::from(number))
}

// The two lines, each ended by a newline.
fn cell_of(text: &str) -> Option<Cell> {
    let (array, rest) = text.split_once('\n')?;
    let index = rest.strip_suffix('\n')?;
    Some(Cell {
        array: number_of(array)?,
        index: number_of(index)?,
    })
}

// What the file holds, where its end comes no later than the longest `cell.txt`.
fn cell_in(file: &mut impl Read) -> Option<Cell> {
    let mut text = [0u8; ROOM];
    let held = print::read_full(file, &mut text);
    match file.read(&mut [0]) {
        Ok(0) => cell_of(str::from_utf8(&text[..held]).ok()?),
        _ => None,
    }
}

fn read_cell(rt: &impl Files) -> Option<Cell> {
    let mut file = fs::open(rt, "cell.txt").ok()?;
    cell_in(&mut file)
}

fn look(rt: &(impl Print + Eprint), query: &[u8], cell: Cell) {
    let mut bytes = [0u8; PAGE];
    let mut page = Page::new(rt, &mut bytes);
    match checker::lookup(query, cell.array, cell.index) {
        Err(refusal) => writeln!(page, "{refusal}"),
        Ok(value) => writeln!(page, "{value}"),
    }
}

// Standard input comes first: were it closed, `cell.txt` would be opened under its number.
fn main(rt: HostRuntime) {
    let mut buffer = [0u8; QUERY_ROOM];
    if let Some(query) = print::whole_query(&rt, &mut rt.stdin(), &mut buffer) {
        let cell = read_cell(&rt).unwrap_or(NOWHERE);
        look(&rt, query, cell);
    }
}

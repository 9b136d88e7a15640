// Answers questions that come on standard input, one after another, with the lines of `rust/README.md`: the verdict's lines, a check into
// a buffer of a given room, a lookup, and clauses into a run of a given room. The tester asks them and compares.
#![tactic(auto)]

ghost use Rattle.std.specs.Prelude.{◌≤◌};

use checker::Verdict;
use print::{PAGE, Page};
use std::fmt::Display;
use std::io::Read;
use std::{fmt, str};

// More than any query that is asked about.
const QUERY: usize = 5000;

// More than any room that is asked for, and what stands there before the call.
const BYTES: usize = 1024;

const BYTE: u8 = 0xAA;

const NUMBERS: usize = 13000;

const NUMBER: i32 = -7;

// What is asked of a query.
#[derive(Clone, Copy)]
enum Question {
    Verdict,
    Check { room: usize },
    Lookup { array: u64, index: u64 },
    Clauses { room: usize },
}

// So many bytes, and 0 for each that is not there: a question that is cut short is answered as it was.
fn take<const N: usize>(input: &mut impl Read) -> [u8; N]
    requires { N ≤ 8 }
{
    let mut bytes = [0; N];
    print::read_full(input, &mut bytes);
    bytes
}

fn take_two(input: &mut impl Read) -> usize
    ensures { result ≤ 65535 }
{
    usize::from(u16::from_be_bytes(take(input)))
}

fn take_eight(input: &mut impl Read) -> u64 {
    u64::from_be_bytes(take(input))
}

const DIGITS: &[u8; 16] = b"0123456789abcdef";

// So many bytes are written as one text: `{:02x}` sets up a format for each.
const AT_ONCE: usize = 32;

// Bytes in hex.
#[derive(Clone, Copy)]
struct Hex<'a>(&'a [u8]);

impl Display for Hex<'_> {
    fn fmt<W: fmt::Write>(&self, f: &mut fmt::Formatter<W>) -> fmt::Result {
        for bytes in self.0.chunks(AT_ONCE) {
            let mut digits = [b' '; 2 * AT_ONCE];
            for (two, byte) in digits.chunks_exact_mut(2).zip(bytes) {
                two[0] = DIGITS[usize::from(byte / 16)];
                two[1] = DIGITS[usize::from(byte % 16)];
            }
            let text = &digits[..(2 * bytes.len()).min(2 * AT_ONCE)];
            f.write_str(str::from_utf8(text).unwrap_or(""))?;
        }
        Ok(())
    }
}

// "then the buffer of that room in hex"
fn put_bytes(page: &mut Page<'_, impl Print + Eprint>, bytes: &[u8]) {
    writeln!(page, "{}", Hex(bytes));
}

fn put_numbers(page: &mut Page<'_, impl Print + Eprint>, numbers: &[i32]) {
    for (k, number) in numbers.iter().enumerate() {
        if k > 0 {
            write!(page, " ");
        }
        write!(page, "{number}");
    }
    writeln!(page);
}

fn answer_check(page: &mut Page<'_, impl Print + Eprint>, query: &[u8], answer: &mut [u8]) {
    match checker::check(query, answer) {
        Err(refusal) => writeln!(page, "{refusal}"),
        Ok(Verdict::Consistent { pairs }) => writeln!(page, "consistent {pairs}"),
        Ok(Verdict::Conflict { pairs, length }) => writeln!(page, "conflict {pairs} {length}"),
    }
    put_bytes(page, answer);
}

fn answer_lookup(page: &mut Page<'_, impl Print + Eprint>, query: &[u8], array: u64, index: u64) {
    match checker::lookup(query, array, index) {
        Err(refusal) => writeln!(page, "{refusal}"),
        Ok(value) => writeln!(page, "{value}"),
    }
}

fn answer_clauses(page: &mut Page<'_, impl Print + Eprint>, query: &[u8], numbers: &mut [i32]) {
    match checker::clauses(query, numbers) {
        Err(refusal) => writeln!(page, "{refusal}"),
        Ok(totals) => {
            let (variables, clauses) = (totals.variables, totals.clauses);
            writeln!(page, "{variables} {clauses} {}", totals.count);
        }
    }
    put_numbers(page, numbers);
}

// The answer's lines; none where more room is asked for than there is. The lines of a verdict go out by themselves, as those of the verdict
// program do, and the line that closes them after them.
fn answer(rt: &(impl Print + Eprint), question: Question, query: &[u8]) -> Option<()> {
    let mut bytes = [0u8; PAGE];
    let mut page = Page::new(rt, &mut bytes);
    match question {
        Question::Verdict => lines::verdict(rt, query),
        Question::Check { room } => {
            let mut bytes = [BYTE; BYTES];
            answer_check(&mut page, query, bytes.get_mut(..room)?);
        }
        Question::Lookup { array, index } => answer_lookup(&mut page, query, array, index),
        Question::Clauses { room } => {
            let mut numbers = [NUMBER; NUMBERS];
            answer_clauses(&mut page, query, numbers.get_mut(..room)?);
        }
    }
    // "then a line `.`"
    writeln!(page, ".");
    Some(())
}

fn take_question(input: &mut impl Read) -> Option<Question> {
    let mut tag = [0u8; 1];
    print::fill(input, &mut tag, 1)?;
    let question = match tag {
        [b'V'] => Question::Verdict,
        [b'K'] => Question::Check {
            room: take_two(input),
        },
        [b'L'] => Question::Lookup {
            array: take_eight(input),
            index: take_eight(input),
        },
        [b'C'] => Question::Clauses {
            room: take_two(input),
        },
        _ => Question::Clauses { room: 0 },
    };
    Some(question)
}

// Takes one question and answers it: none where there is no other, or not all of it.
fn take_one(rt: &(impl Print + Eprint), input: &mut impl Read) -> Option<()> {
    let question = take_question(input)?;
    let length = take_two(input);
    let mut room = [0u8; QUERY];
    let query = print::fill(input, &mut room, length)?;
    let _ = answer(rt, question, query);
    Some(())
}

// A proved loop has to end, so it has a last turn.
fn main(rt: HostRuntime) {
    let mut input = rt.stdin();
    for _ in 0..u64::MAX {
        if take_one(&rt, &mut input).is_none() {
            break;
        }
    }
}

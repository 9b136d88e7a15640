// The lines that 01 has for the check of a query, on standard output.
#![tactic(auto)]

ghost use Rattle.std.specs.Prelude.{◌≡◌, ◌+◌, ◌*◌, ◌<◌, length, IfSome, Some};
ghost use Rattle.lines.specs.Lines.{literal_text};

use checker::Verdict;
use paper::{CONCLUSION, DIFFER, EQUAL, IS_FALSE, IS_TRUE, MAX_ANSWER, MAX_ARRAYS, MAX_SOURCES};
use print::{PAGE, Page};
use std::fmt;

// A literal of the lemma, with the numbers of its terms, as who reads the bytes has it: nothing of it is the writer's.
#[derive(Clone, Copy)]
enum Literal {
    Equal(u16, u16),
    Differ(u16, u16),
    IsTrue(u16),
    IsFalse(u16),
    Conclusion(u16, u16),
}

// "`eq`, `ne`, `true`, `false`, `then`"
impl fmt::Display for Literal {
    ghost output = { λ literal. Some (literal_text literal) };

    fn fmt<W: fmt::Write>(&self, f: &mut fmt::Formatter<W>) -> fmt::Result {
        match *self {
            Literal::Equal(i, j) => write!(f, "eq {i} {j}"),
            Literal::Differ(i, j) => write!(f, "ne {i} {j}"),
            Literal::IsTrue(m) => write!(f, "true {m}"),
            Literal::IsFalse(m) => write!(f, "false {m}"),
            Literal::Conclusion(v, u) => write!(f, "then {v} {u}"),
        }
    }
}

// The number of a term, from its two bytes.
fn term(high: u8, low: u8) -> u16
    ensures { result ≡ high * 256 + low }
{
    u16::from_be_bytes([high, low])
}

// The literal that the bytes begin with, by its tag, and the bytes after it.
fn first_literal(lemma: &[u8]) -> Option<(Literal, &[u8])>
    ensures { IfSome result (λ found. length found.1.now < length lemma.now) }
{
    match lemma {
        [EQUAL, _, _, a, b, c, d, rest @ ..] => {
            Some((Literal::Equal(term(*a, *b), term(*c, *d)), rest))
        }
        [DIFFER, _, _, a, b, c, d, rest @ ..] => {
            Some((Literal::Differ(term(*a, *b), term(*c, *d)), rest))
        }
        [IS_TRUE, _, _, a, b, rest @ ..] => Some((Literal::IsTrue(term(*a, *b)), rest)),
        [IS_FALSE, _, _, a, b, rest @ ..] => Some((Literal::IsFalse(term(*a, *b)), rest)),
        [CONCLUSION, _, _, a, b, c, d, rest @ ..] => {
            Some((Literal::Conclusion(term(*a, *b), term(*c, *d)), rest))
        }
        _ => None,
    }
}

// "a line per literal"
fn print_lemma(page: &mut Page<'_, impl Print + Eprint>, lemma: &[u8]) {
    let mut left = lemma;
    while let Some((literal, rest)) = first_literal(left) {
        writeln!(page, "{literal}");
        left = rest;
    }
}

// "a line `array index value` for each array and index value that a source reaches there, by array, then index", up to the first array that
// the query has not.
fn print_model(page: &mut Page<'_, impl Print + Eprint>, query: &[u8]) {
    let mut indices = [0u64; MAX_SOURCES];
    let mut contents = [0u64; MAX_SOURCES];
    for array in 0..MAX_ARRAYS {
        let Ok(count) = checker::cells(query, array as u64, &mut indices, &mut contents) else {
            return;
        };
        for (index, value) in indices.iter().zip(&contents).take(count) {
            writeln!(page, "{array} {index} {value}");
        }
    }
}

// Prints the verdict, with the lemma or the model's cells.
pub fn verdict(rt: &(impl Print + Eprint), query: &[u8]) {
    let mut bytes = [0u8; PAGE];
    let mut page = Page::new(rt, &mut bytes);
    let mut answer = [0u8; MAX_ANSWER];
    match checker::check(query, &mut answer) {
        Err(refusal) => writeln!(page, "{refusal}"),
        Ok(Verdict::Consistent { pairs }) => {
            writeln!(page, "consistent {pairs}");
            print_model(&mut page, query);
        }
        Ok(Verdict::Conflict { pairs, length }) => {
            writeln!(page, "conflict {pairs}");
            print_lemma(&mut page, &answer[..length.min(MAX_ANSWER)]);
        }
    }
}

// What the programs read and print: a query from standard input, and 01's lines on standard output. What is printed is gathered on a page,
// which goes out when it is full and at the end, so that many short lines take few writes.
#![tactic(auto)]

ghost use Rattle.std.specs.Prelude.{◌≡◌, ◌<◌, ◌≤◌, length, IfSome, Some};
ghost use Rattle.io.specs.Counts.{IsPrefixLen};
ghost use Rattle.print.specs.Lines.{entry_text};

use paper::MAX_BYTES;
use std::fmt;
use std::fmt::Display;
use std::io::Read;

// One byte more than a query may have, so that a longer input is refused with 1, however long it is.
pub const QUERY_ROOM: usize = MAX_BYTES + 1;

// How many bytes a page holds.
pub const PAGE: usize = 4096;

// What cannot be read or written is said on standard error, with why, and the program goes on.
fn fail(rt: &impl Eprint, what: &str, why: impl Display + Drop) {
    let _ = rt.eprintln(format_args!("{what}: {why}"));
}

// Reads once, and answers how many bytes there were: none at the input's end, and none where the read fails. No `Option`: either ends the
// reading, and `ends` asks which it was.
fn read_some(input: &mut impl Read, buffer: &mut [u8]) -> usize
    ensures { IsPrefixLen result buffer.new }
{
    input.read(buffer).unwrap_or(0)
}

// Reads until the buffer is full, the input ends or a read fails, and answers how many bytes it put at the start of the buffer: `read_exact`
// does not tell how many.
pub fn read_full(input: &mut impl Read, buffer: &mut [u8]) -> usize
    ensures { IsPrefixLen result buffer.new }
{
    let mut done = 0;
    while done < buffer.len() {
        let got = read_some(input, &mut buffer[done..]);
        if got == 0 {
            break;
        }
        done += got;
    }
    done
}

// Reads so many bytes to the start of the room: none where they are not there, or are more than it holds.
pub fn fill<'a>(input: &mut impl Read, room: &'a mut [u8], count: usize) -> Option<&'a [u8]>
    ensures { IfSome result (λ bytes. length bytes.now ≡ count) }
{
    let bytes = room.get_mut(..count)?;
    if read_full(input, bytes) < count {
        return None;
    }
    Some(bytes)
}

// Does the input end here? Otherwise standard error says why what was read of it is not all.
fn ends(rt: &impl Eprint, input: &mut impl Read) -> bool {
    match input.read(&mut [0]) {
        Ok(0) => true,
        Ok(_) => {
            fail(rt, "standard input", "a read failed before its end");
            false
        }
        Err(error) => {
            fail(rt, "standard input", error);
            false
        }
    }
}

// Reads a query into the buffer, up to the end of the input or the buffer. Where a read stopped short of both there is none, and standard
// error says why.
pub fn whole_query<'a>(
    rt: &impl Eprint,
    input: &mut impl Read,
    buffer: &'a mut [u8],
) -> Option<&'a [u8]>
    ensures { IfSome result (λ query. IsPrefixLen (length query.now) buffer.old) }
{
    let held = read_full(input, buffer);
    if held < buffer.len() && !ends(rt, input) {
        return None;
    }
    Some(&buffer[..held])
}

fn send(rt: &(impl Print + Eprint), bytes: &[u8]) {
    if let Err(error) = rt.write_all(bytes) {
        fail(rt, "standard output", error);
    }
}

// What is to be printed, up to 4,096 bytes of it. The bytes are lent: a page with bytes of its own is copied where it is returned and where it
// is dropped.
pub struct Page<'a, R: Print + Eprint> {
    rt: &'a R,
    bytes: &'a mut [u8; PAGE],
    used: usize,
    ghost fits: { used ≤ 4096 },
}

impl<'a, R: Print + Eprint> Page<'a, R> {
    pub fn new(rt: &'a R, bytes: &'a mut [u8; PAGE]) -> Page<'a, R>
        ensures { result.used ≡ 0 }
    {
        Page { rt, bytes, used: 0 }
    }

    // What `write!` and `writeln!` call. It does not fail, since a page that cannot be sent is told of at once.
    pub fn write_fmt(&mut self, text: impl Display + Drop) {
        let _ = fmt::Write::write_fmt(self, text);
    }
}

impl<R: Print + Eprint> fmt::Write for Page<'_, R> {
    // The place is a number of its own in the loop, which stays in a register: behind the reference each byte waits for the one before it.
    fn write_str(&mut self, text: &str) -> fmt::Result {
        let mut used = self.used;
        for byte in text.as_bytes() {
            if used == PAGE {
                send(self.rt, self.bytes);
                used = 0;
            }
            self.bytes[used] = *byte;
            used += 1;
        }
        self.used = used;
        Ok(())
    }
}

impl<R: Print + Eprint> Drop for Page<'_, R> {
    // What stands on the page goes out.
    fn drop(self) {
        let Page { rt, bytes, used } = self;
        send(rt, &bytes[..used]);
    }
}

// A number of the clauses, with what comes after it: "a clause per line with its 0".
#[derive(Clone, Copy)]
pub struct Entry(pub i32);

impl Display for Entry {
    ghost output = { λ entry. Some (entry_text entry.0) };

    fn fmt<W: fmt::Write>(&self, f: &mut fmt::Formatter<W>) -> fmt::Result {
        match self.0 {
            0 => writeln!(f, "0"),
            number => write!(f, "{number} "),
        }
    }
}

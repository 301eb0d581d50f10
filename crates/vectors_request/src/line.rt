// A line: a chunk or limits, which are stored, or a call, which is left to the caller.
ghost use Rattle.std.specs.Prelude.{length};
ghost use Rattle.text_line.specs.Inner.Lines.{Within};

use crate::state::{State, bad, long, next_line};
use std::io;
use std::io::Write;
use text_line::{Found, LONGEST, Step};
use text_list::Numbers;
use text_read::spelt::Spelt;
use text_read::{hex, spelt};

// The longest chunk.
pub const LONGEST_CHUNK: usize = 65536;

pub type Chunk = [u8; LONGEST_CHUNK];

// A line that asks nothing more, or a call: its letter, and where the numbers that are wanted begin and end.
#[derive(Clone, Copy)]
pub enum Heard {
    Done(State),
    Call(State, u8, usize, usize),
}

// `chunk HEX`
fn chunk_line<W: Write>(
    output: &mut W,
    spelling: &[u8],
    chunk: &mut Chunk,
    s: State,
) -> io::Result<State> {
    match hex::read(spelling, chunk) {
        None => bad(output, s),
        Some(len) => Ok(State { len, ..s }),
    }
}

// `limits L1 .. L9`
fn limits_line<W: Write>(
    output: &mut W,
    line: &[u8],
    limits: &mut [u64; 9],
    want: &mut Numbers,
    s: State,
) -> io::Result<State> {
    match spelt::numbers(line, 7, want) {
        Some(Spelt { to: 9, .. }) => {
            limits.copy_from_slice(&want[..9]);
            Ok(s)
        }
        _ => bad(output, s),
    }
}

// `LETTER ARGUMENTS = NUMBERS`
fn call_line<W: Write>(
    output: &mut W,
    line: &[u8],
    kind: u8,
    want: &mut Numbers,
    s: State,
) -> io::Result<Heard> {
    match spelt::numbers(line, 1, want) {
        Some(
            Spelt {
                from: Some(from),
                to,
                ..
            },
        ) => Ok(Heard::Call(s, kind, from, to)),
        _ => Ok(Heard::Done(bad(output, s)?)),
    }
}

// What a line says that is a request.
fn request<W: Write>(
    output: &mut W,
    line: &[u8],
    kind: u8,
    chunk: &mut Chunk,
    limits: &mut [u64; 9],
    want: &mut Numbers,
    s: State,
) -> io::Result<Heard> {
    if let Some(spelling) = line.strip_prefix(b"chunk ") {
        return Ok(Heard::Done(chunk_line(output, spelling, chunk, s)?));
    }
    if line.starts_with(b"limits ") {
        return Ok(Heard::Done(limits_line(output, line, limits, want, s)?));
    }
    call_line(output, line, kind, want, s)
}

// What a line says. An empty line and a comment ask nothing.
fn hear_line<W: Write>(
    output: &mut W,
    line: &[u8],
    chunk: &mut Chunk,
    limits: &mut [u64; 9],
    want: &mut Numbers,
    s: State,
) -> io::Result<Heard> {
    match line.first() {
        None | Some(b'#') => Ok(Heard::Done(s)),
        Some(_) if line.len() > LONGEST => Ok(Heard::Done(long(output, s)?)),
        Some(kind) => request(output, line, *kind, chunk, limits, want, s),
    }
}

// What a step over the input has found: the numbers of a call are then in `want`.
pub fn hear<W: Write>(
    output: &mut W,
    buf: &[u8],
    step: Step,
    chunk: &mut Chunk,
    limits: &mut [u64; 9],
    want: &mut Numbers,
    s: State,
) -> io::Result<Heard>
    requires { Within step (length buf.now) }
{
    match step.found {
        Found::Line(from, to) => {
            hear_line(output, &buf[from..to], chunk, limits, want, next_line(s))
        }
        Found::Nothing | Found::End => Ok(Heard::Done(s)),
    }
}

// Asks the exported calls what the lines on standard input ask, and compares the answers with those that the lines
// give (docs/PROTOCOL.md). A line of output for each difference, and last how many agree and how many differ.
#![tactic(auto)]

ghost use Rattle.std.specs.Prelude.{length};
ghost use Rattle.text_line.specs.Inner.Lines.{Within};

mod calls;
mod entries;
mod lent;
mod words;

use std::io;
use std::io::{Read, Write};
use text_line as input;
use text_line::{Found, LONGEST, Lines, Step};
use text_list::{Numbers, ROOM};
use vectors_compare::Tally;
use vectors_request::line::{Chunk, Heard, LONGEST_CHUNK, hear};
use vectors_request::state::{State, bad, judged};

// Asks a call, and holds the answer against the numbers that are wanted.
fn answer<W: Write>(
    output: &mut W,
    chunk: &[u8],
    limits: &[u64; 9],
    want: &Numbers,
    got: &mut Numbers,
    s: State,
    kind: u8,
    from: usize,
    to: usize,
) -> io::Result<State> {
    let Some(chunk) = chunk.get(..s.len) else {
        return bad(output, s);
    };
    match calls::ask(kind, chunk, limits, want, got) {
        Some(n) => judged(output, want, from, to, got, n, s),
        None => bad(output, s),
    }
}

fn respond<W: Write>(
    output: &mut W,
    buf: &[u8],
    step: Step,
    chunk: &mut Chunk,
    limits: &mut [u64; 9],
    want: &mut Numbers,
    got: &mut Numbers,
    s: State,
) -> io::Result<State>
    requires { Within step (length buf.now) }
{
    match hear(output, buf, step, chunk, limits, want, s)? {
        Heard::Done(s) => Ok(s),
        Heard::Call(s, kind, from, to) => {
            answer(output, chunk, limits, want, got, s, kind, from, to)
        }
    }
}

// Answers every line. Nothing says that the input ends, so the loop counts its turns up to a number that no run
// reaches.
fn respond_all<R: Read, W: Write>(
    reader: &mut R,
    output: &mut W,
    buf: &mut [u8],
    chunk: &mut Chunk,
    limits: &mut [u64; 9],
    want: &mut Numbers,
    got: &mut Numbers,
) -> io::Result<State> {
    let mut s = State {
        len: 0,
        lines: 0,
        tally: Tally {
            agree: 0,
            differ: 0,
        },
    };
    let mut lines = Lines::new();
    for _ in 0..u64::MAX {
        let step = input::next(reader, buf, lines);
        if let Found::End = step.found {
            break;
        }
        s = respond(output, buf, step, chunk, limits, want, got, s)?;
        lines = step.rest;
    }
    Ok(s)
}

fn run<R: Read, W: Write>(
    reader: &mut R,
    output: &mut W,
    buf: &mut [u8],
    chunk: &mut Chunk,
    limits: &mut [u64; 9],
    want: &mut Numbers,
    got: &mut Numbers,
) -> io::Result<()> {
    let s = respond_all(reader, output, buf, chunk, limits, want, got)?;
    vectors_report::totals(output, s.tally)
}

// The buffer of the input has room for two of the longest requests (crate text_line says why).
fn main(rt: HostRuntime) -> io::Result<()> {
    let mut buf = [0u8; 2 * LONGEST];
    let mut chunk = [0u8; LONGEST_CHUNK];
    let mut limits = [0u64; 9];
    let mut want = [0u64; ROOM];
    let mut got = [0u64; ROOM];
    run(
        &mut rt.reader(),
        &mut io::writer(&rt),
        &mut buf,
        &mut chunk,
        &mut limits,
        &mut want,
        &mut got,
    )
}

// The lines of an input, found in a buffer that is filled piece by piece.
#![tactic(auto)]

ghost use Rattle.std.specs.Prelude.{◌≡◌, ◌≤◌, ◌<◌, ◌==◌, length, position, IfSome};
ghost use Rattle.text_line.specs.Inner.Lines.{Held, Inside, Within};

use std::io::Read;

// The longest request, without its newline.
pub const LONGEST: usize = 1048576;

// How far the input is read: bytes start to end of the buffer wait for their answer, and those
// from start to seen have no newline.
#[derive(Clone, Copy)]
pub struct Lines {
    pub start: usize,
    pub seen: usize,
    pub end: usize,
    // What waits is the rest of a line that was too long.
    pub long: bool,
    // The input has ended.
    pub done: bool,
}

#[derive(Clone, Copy)]
pub enum Found {
    // A line, or so much of one that it is no request, however it goes on: where it begins and ends in the buffer.
    Line(usize, usize),
    // No line so far.
    Nothing,
    // The end of the input.
    End,
}

// What was found, and what is left.
#[derive(Clone, Copy)]
pub struct Step {
    pub found: Found,
    pub rest: Lines,
}

impl Lines {
    // Nothing read so far.
    pub fn new() -> Lines
        ensures { Held result 0 }
    {
        Lines {
            start: 0,
            seen: 0,
            end: 0,
            long: false,
            done: false,
        }
    }
}

// One step: the next line, or one more read. A byte is looked at once. What waits is moved only
// where the buffer is full, and is then at most half of it, so that a byte is moved once or less.
pub fn next<R: Read>(input: &mut R, buf: &mut [u8], l: Lines) -> Step
    requires { Held l (length buf.old) }
    ensures { Within result (length buf.new) }
{
    if let Some(n) = newline(&buf[l.seen..l.end]) {
        let at = l.seen + n;
        return ended(l, at, at + 1);
    }
    if l.done {
        return last(l);
    }
    if l.end - l.start > LONGEST {
        return passed(l);
    }
    let l = room(buf, l);
    let rest = filled(input, buf, l);
    Step {
        found: Found::Nothing,
        rest,
    }
}

// The place of the first newline, if there is one.
fn newline(bytes: &[u8]) -> Option<usize>
    ensures value { result ≡ position (λ b. b == 10) bytes.now }
    ensures bound { IfSome result (λ n. n < length bytes.now) }
{
    bytes.iter().position(|b| *b == b'\n')
}

// What waiting bytes are: a line, or the rest of a long one.
fn waiting(l: Lines, to: usize) -> Found
    ensures { l.start ≤ to → Inside result to }
{
    if l.long {
        return Found::Nothing;
    }
    Found::Line(l.start, to)
}

// The line that ends at `at`, where what follows begins at `next`.
fn ended(l: Lines, at: usize, next: usize) -> Step
    requires { (l.start ≤ at) × (at ≤ next) × (next ≤ l.end) }
    ensures { Within result l.end }
{
    Step {
        found: waiting(l, at),
        rest: Lines {
            start: next,
            seen: next,
            end: l.end,
            long: false,
            done: l.done,
        },
    }
}

// The input has ended: a last line without its newline, or nothing.
fn last(l: Lines) -> Step
    requires { Held l l.end }
    ensures { Within result l.end }
{
    if l.start == l.end {
        return Step {
            found: Found::End,
            rest: l,
        };
    }
    ended(l, l.end, l.end)
}

// A line that is too long for a request and has not ended: the rest of it is passed over.
fn passed(l: Lines) -> Step
    requires { Held l l.end }
    ensures { Within result l.end }
{
    let end = l.end;
    Step {
        found: waiting(l, end),
        rest: Lines {
            start: end,
            seen: end,
            end,
            long: true,
            done: false,
        },
    }
}

// Where the buffer is full, moves what waits to its front.
fn room(buf: &mut [u8], l: Lines) -> Lines
    requires { Held l (length buf.old) }
    ensures { Held result (length buf.new) }
{
    if l.end < buf.len() {
        return l;
    }
    let waiting = l.end - l.start;
    buf.copy_within(l.start..l.end, 0);
    Lines {
        start: 0,
        seen: waiting,
        end: waiting,
        ..l
    }
}

// One read behind what waits, in which no newline was found.
fn filled<R: Read>(input: &mut R, buf: &mut [u8], l: Lines) -> Lines
    requires { Held l (length buf.old) }
    ensures { Held result (length buf.new) }
{
    let end = l.end;
    let n = read(input, &mut buf[end..]);
    Lines {
        seen: end,
        end: end + n,
        done: n == 0,
        ..l
    }
}

// Reads once. A read that fails counts as the end of the input.
fn read<R: Read>(input: &mut R, buf: &mut [u8]) -> usize
    ensures { result ≤ length buf.new }
{
    input.read(buf).unwrap_or(0)
}

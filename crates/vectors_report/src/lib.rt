// What is printed: a line for each difference, and last how many answers agreed.
#![tactic(auto)]

ghost use Rattle.std.specs.Prelude.{IfOk};
ghost use Rattle.text_print.specs.Output.{Fits};

use std::io;
use std::io::Write;
use text_print::{Out, ROOM};
use vectors_compare::{Tally, first_difference};

// A number of a list behind its label, or that there is none.
fn number<W: Write>(
    output: &mut W,
    out: &mut Out,
    used: usize,
    label: &[u8],
    numbers: &[u64],
    at: usize,
) -> io::Result<usize>
    requires { Fits used }
    ensures { IfOk result (λ after. Fits after) }
{
    match numbers.get(at) {
        Some(n) => text_print::field(output, out, used, label, *n),
        None => {
            let used = text_print::text(output, out, used, label)?;
            text_print::text(output, out, used, b"nothing")
        }
    }
}

// The first number that differs: its place, and what it is in each list.
fn first<W: Write>(
    output: &mut W,
    out: &mut Out,
    line: u64,
    want: &[u64],
    got: &[u64],
) -> io::Result<()> {
    let at = first_difference(want, got);
    let used = text_print::field(output, out, 0, b"line ", line)?;
    let used = text_print::field(output, out, used, b", number ", at as u64)?;
    let used = number(output, out, used, b": expected ", want, at)?;
    let used = number(output, out, used, b", found ", got, at)?;
    let used = text_print::text(output, out, used, b"\n")?;
    text_print::flush(output, out, used)
}

fn note<W: Write>(output: &mut W, out: &mut Out, line: u64, why: &[u8]) -> io::Result<()> {
    let used = text_print::field(output, out, 0, b"line ", line)?;
    let used = text_print::text(output, out, used, why)?;
    text_print::flush(output, out, used)
}

// Prints that a line is no request.
pub fn no_request<W: Write>(output: &mut W, line: u64) -> io::Result<()> {
    let mut out = [0u8; ROOM];
    note(output, &mut out, line, b" is no request\n")
}

// Prints that a line is too long.
pub fn too_long<W: Write>(output: &mut W, line: u64) -> io::Result<()> {
    let mut out = [0u8; ROOM];
    note(output, &mut out, line, b" is too long\n")
}

fn reported<W: Write>(output: &mut W, line: u64, want: &[u64], got: &[u64]) -> io::Result<()> {
    let mut out = [0u8; ROOM];
    first(output, &mut out, line, want, got)
}

// An answer of n numbers that differs from what is wanted, or cannot be held against it.
pub fn difference<W: Write>(
    output: &mut W,
    line: u64,
    want: &[u64],
    from: usize,
    to: usize,
    got: &[u64],
    n: usize,
) -> io::Result<()> {
    if to < from {
        return no_request(output, line);
    }
    if want.len() <= to || got.len() <= n {
        return too_long(output, line);
    }
    reported(output, line, &want[from..to], &got[..n])
}

// Prints how many answers agreed, and how many differed.
pub fn totals<W: Write>(output: &mut W, t: Tally) -> io::Result<()> {
    let mut out = [0u8; ROOM];
    sum(output, &mut out, t)
}

fn sum<W: Write>(output: &mut W, out: &mut Out, t: Tally) -> io::Result<()> {
    let used = text_print::decimal(output, out, 0, t.agree)?;
    let used = text_print::field(output, out, used, b" agree, ", t.differ)?;
    let used = text_print::text(output, out, used, b" differ\n")?;
    text_print::flush(output, out, used)
}

// Text for a writer, gathered in a buffer. `used` bytes of it wait, and there is always room for one
// more. Each function answers how many wait then. Where the writer fails, so does the function.
#![tactic(auto)]

mod digits;

ghost use Rattle.std.specs.Prelude.{◌≡◌, ℕ, [], ◌∷◌, ◌++◌, ◌≤◌, length, take, IfOk};
ghost use Rattle.text_print.specs.Digits.{last_digits, IsDigitCount};
ghost use Rattle.text_print.specs.Output.{Fits, waiting, put_of, puts, Digits, Written, Printed};

use std::io;
use std::io::{ErrorKind, Write};

// The buffer.
pub const ROOM: usize = 65536;

pub type Out = [u8; ROOM];

// One byte. A buffer that is full is written out.
fn put<W: Write>(to: &mut W, out: &mut Out, used: usize, byte: u8) -> io::Result<usize>
    requires { Fits used }
    ensures fits { IfOk result (λ after. Fits after) }
    ensures result_after { IfOk result (λ after. waiting out.new after ≡ put_of byte (waiting out.old used)) }
    ensures given { Printed (W.contents to.old) (W.contents to.new) (take used out.old ++ byte ∷ []) out.new result }
{
    out[used] = byte;
    if used + 1 < ROOM {
        return Ok(used + 1);
    }
    write_out(to, out)?;
    Ok(0)
}

// Writes bytes out, up to a write that takes nothing or fails.
fn write_out<W: Write>(to: &mut W, bytes: &[u8]) -> io::Result<()>
    ensures { Written (W.contents to.old) (W.contents to.new) bytes.now result }
{
    // A place and no iterator: how far a write goes is the writer's answer.
    let mut done = 0;
    while done < bytes.len() {
        let n = to.write(&bytes[done..])?;
        if n == 0 {
            return Err(io::Error::from(ErrorKind::WriteZero));
        }
        done += n;
    }
    Ok(())
}

// Writes out what waits.
pub fn flush<W: Write>(to: &mut W, out: &[u8], used: usize) -> io::Result<()>
    requires { used ≤ length out.now }
    ensures { Written (W.contents to.old) (W.contents to.new) (take used out.now) result }
{
    write_out(to, &out[..used])
}

// Puts bytes behind what waits.
pub fn text<W: Write>(to: &mut W, out: &mut Out, used: usize, s: &[u8]) -> io::Result<usize>
    requires { Fits used }
    ensures fits { IfOk result (λ after. Fits after) }
    ensures result_after { IfOk result (λ after. waiting out.new after ≡ puts s.now (waiting out.old used)) }
    ensures given { Printed (W.contents to.old) (W.contents to.new) (take used out.old ++ s.now) out.new result }
{
    let mut at = used;
    for b in s {
        at = put(to, out, at, *b)?;
    }
    Ok(at)
}

// Puts a number, in decimal, behind what waits.
pub fn decimal<W: Write>(to: &mut W, out: &mut Out, used: usize, n: u64) -> io::Result<usize>
    requires { Fits used }
    ensures fits { IfOk result (λ after. Fits after) }
    ensures digits { IfOk result (λ after. Digits 10 1 [] n (waiting out.old used) (waiting out.new after)) }
    ensures given { (places : ℕ) × IsDigitCount 10 1 n places
        × Printed (W.contents to.old) (W.contents to.new)
        (take used out.old ++ last_digits 10 places n) out.new result }
{
    let mut digits = [0u8; 20];
    let k = digits::decimal(n, &mut digits);
    text(to, out, used, &digits[..k])
}

// A number behind its label.
pub fn field<W: Write>(
    to: &mut W,
    out: &mut Out,
    used: usize,
    label: &[u8],
    n: u64,
) -> io::Result<usize>
    requires { Fits used }
    ensures fits { IfOk result (λ after. Fits after) }
    ensures given { (places : ℕ) × IsDigitCount 10 1 n places
        × Printed (W.contents to.old) (W.contents to.new) (take used out.old ++ (label.now ++ last_digits 10 places n))
        out.new result }
{
    let used = text(to, out, used, label)?;
    decimal(to, out, used, n)
}

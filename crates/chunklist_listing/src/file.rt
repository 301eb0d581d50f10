// A file, listed: all that `chunklist` does.
ghost use Rattle.std.specs.Prelude.{◌≡◌, ◌<◌, ◌≤◌, length, take, IfOk, IfSome};
ghost use Rattle.std.specs.Io.KnownBytes.{Consumes, IsAtEnd};
ghost use Rattle.text_print.specs.Output.{Written};
ghost use Rattle.chunklist_listing.specs.Listing as listings;

use crate::{LONGEST, listing};
use std::io;
use std::io::{Read, Write};
use text_print::Out;

// Reads to the end of the file, or until the buffer is full, in whatever pieces it comes.
fn read_full<R: Read>(from: &mut R, buf: &mut [u8]) -> io::Result<usize>
    ensures bound { IfOk result (λ n. n ≤ length buf.new) }
    ensures bytes { IfOk result (λ n. Consumes (R.remaining from.old) (R.remaining from.new) (take n buf.new)) }
    ensures end { IfOk result (λ n. n < length buf.new → IsAtEnd (R.remaining from.new)) }
{
    let mut done = 0;
    while done < buf.len() {
        let n = from.read(&mut buf[done..])?;
        if n == 0 {
            return Ok(done);
        }
        done += n;
    }
    Ok(done)
}

// Ruled out: a buffer that a file of one byte too many fills, so that it is listed as if it ended there.
fn list_into<R: Read, W: Write>(
    from: &mut R,
    to: &mut W,
    buf: &mut [u8],
    out: &mut Out,
) -> io::Result<()>
    requires { listings.list_limits.max_input_bytes < length buf.old }
    ensures { IfSome (R.remaining from.old)
        (λ file. Written (W.contents to.old) (W.contents to.new) (listings.listing file) result) }
{
    let n = read_full(from, buf)?;
    let used = listing(&buf[..n], to, out, 0)?;
    text_print::flush(to, out, used)
}

// Lists the file that is read. The buffer has one byte more than the longest file that is read: where it is filled, the
// file is too long. Where the writer fails, it was given a front of the listing.
pub fn list_file<R: Read, W: Write>(from: &mut R, to: &mut W) -> io::Result<()>
    ensures { IfSome (R.remaining from.old)
        (λ file. Written (W.contents to.old) (W.contents to.new) (listings.listing file) result) }
{
    let mut buf = [0u8; LONGEST + 1];
    let mut out = [0u8; text_print::ROOM];
    list_into(from, to, &mut buf, &mut out)
}

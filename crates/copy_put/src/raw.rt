// Bytes as they are.
ghost use Rattle.std.specs.Prelude.{◌≡◌, [], ◌∷◌, ◌++◌, ◌+◌, ◌-◌, ◌*◌, ◌≤◌, ◌<◌, length, take, drop};
ghost use Rattle.copy_put.specs.Inner.Put.{Put};
ghost use Rattle.format.specs.Shortest.{shortest};

use crate::number::put_varint;
use slice::cursor::{Cursor, remaining};
use slice::lent::copy_bytes;

// The sum of a place and a length. No copy of a chunk is longer than 2^32, so behind that any answer will do.
pub fn plus(at: usize, n: usize) -> usize
    ensures { at + n ≤ 4294967296 → result ≡ at + n }
{
    if 4294967296 < at {
        return at;
    }
    if 4294967296 < n {
        return n;
    }
    at + n
}

// Writes one byte at a place, where there is room, and gives the place behind it. Ruled out: a byte in the place before, a place behind that is the place itself.
pub fn put_byte(out: &mut [u8], at: usize, byte: u8) -> usize
    ensures { Put (byte ∷ []) at out.old result out.new }
{
    if out.len() <= at {
        return plus(at, 1);
    }
    out[at] = byte;
    at + 1
}

// `len` bytes of s from `start` on, where s has as many. Ruled out: the last byte left out, bytes from the start of s.
pub fn put_bytes(s: &[u8], start: usize, len: usize, out: &mut [u8], at: usize) -> usize
    ensures { len ≤ length s.now - start → Put (take len (drop start s.now)) at out.old result out.new }
{
    if remaining(s, Cursor { at: start }) < len {
        return at;
    }
    if out.len() < at {
        return plus(at, len);
    }
    if out.len() - at < len {
        return plus(at, len);
    }
    copy_bytes(s, start, len, out, at);
    at + len
}

// The bytes of s from `first` to `end`, where s has them. Ruled out: the byte at `end`, the bytes before `first`.
pub fn put_between(s: &[u8], first: usize, end: usize, out: &mut [u8], at: usize) -> usize
    ensures { first ≤ end → end ≤ length s.now → Put (take (end - first) (drop first s.now)) at out.old result out.new }
{
    if end < first {
        return at;
    }
    put_bytes(s, first, end - first, out, at)
}

// A count, and as many items of `width` bytes each, as they stand in s. Ruled out: as many bytes as the count says, items without their count.
pub fn put_run(
    s: &[u8],
    place: usize,
    count: usize,
    width: usize,
    out: &mut [u8],
    at: usize,
) -> usize
    requires { 0 < width }
    ensures { count * width ≤ length s.now - place → Put (shortest count ++ take (count * width) (drop place s.now)) at out.old result out.new }
{
    if remaining(s, Cursor { at: place }) / width < count {
        return at;
    }
    let behind = put_varint(out, at, count as u64);
    put_bytes(s, place, count * width, out, behind)
}

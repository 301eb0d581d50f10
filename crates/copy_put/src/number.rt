// Numbers in their shortest spelling.
ghost use Rattle.std.specs.Prelude.{◌≡◌, ◌+◌, ◌≤◌, ◌/◌, length};
ghost use Rattle.format.specs.Shortest.{shortest};
ghost use Rattle.slice.specs.Inner.Splice.{splice};
ghost use Rattle.copy_put.specs.Inner.Put.{Put};
ghost use Rattle.copy_put.specs.Inner.Groups.{groups};

use crate::raw::plus;
use crate::shortest::varint_len;

// Stores the n lowest groups of v from `at` on, the lowest last.
fn store_groups(out: &mut [u8], at: usize, n: usize, v: u64)
    requires { at + n ≤ length out.old }
    ensures { out.new ≡ splice at (groups n v) out.old }
{
    let mut rest = v;
    for i in (at..at + n).rev() {
        out[i] = (rest % 128) as u8;
        rest /= 128;
    }
}

// Writes a number in its shortest spelling at a place, where there is room, and gives the place behind it. Ruled out: low group first, a number below 128 in two bytes.
pub fn put_varint(out: &mut [u8], at: usize, v: u64) -> usize
    ensures { Put (shortest v) at out.old result out.new }
{
    let len = varint_len(v);
    if out.len() < at {
        return plus(at, len);
    }
    if out.len() - at < len {
        return plus(at, len);
    }
    let last = at + (len - 1);
    store_groups(out, at, len - 1, v / 128);
    out[last] = (v % 128) as u8 + 128;
    at + len
}

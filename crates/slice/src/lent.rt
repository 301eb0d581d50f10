// Writing into memory that a caller lends.
ghost use Rattle.std.specs.Prelude.{◌≡◌, ◌+◌, ◌-◌, ◌≤◌, length, take, drop};
ghost use Rattle.slice.specs.Inner.Splice.{splice};

// Copies `len` bytes of s from `start` on to place `at` of the lent memory. (By index: std's `copy_from_slice` becomes a
// call of memmove, and the library for C calls nothing but memcpy and memset.)
// Ruled out: the last byte left out, a byte written beyond.
pub fn copy_bytes(s: &[u8], start: usize, len: usize, out: &mut [u8], at: usize)
    requires { (len ≤ length s.now - start) × (at + len ≤ length out.old) }
    ensures { out.new ≡ splice at (take len (drop start s.now)) out.old }
{
    for i in 0..len {
        out[at + i] = s[start + i];
    }
}

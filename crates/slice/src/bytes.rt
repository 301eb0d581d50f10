// Parts of a slice, for any place and length; and whether the bytes at a place are given ones.
ghost use Rattle.std.specs.Prelude.{◌≡◌, ◌≤◌, length, take, drop};
ghost use Rattle.format.specs.ReadHeader.{same_bytes};

// The bytes of a slice from a place on; none where the place is behind its end. Ruled out: one byte too few, the front of the slice.
pub fn bytes_from(s: &[u8], place: usize) -> &[u8]
    ensures { result.now ≡ drop place s.now }
{
    let end = s.len();
    if place <= end {
        return &s[place..end];
    }
    &s[end..end]
}

// The bytes of a slice from a place on, at most `len` of them. Ruled out: all of them, one byte too few.
pub fn bytes_at(s: &[u8], place: usize, len: usize) -> &[u8]
    ensures { result.now ≡ take len (drop place s.now) }
{
    let rest = bytes_from(s, place);
    if len <= rest.len() {
        return &rest[0..len];
    }
    rest
}

// Whether the bytes at a place are these. Ruled out: the last of them not looked at.
pub fn same_bytes(s: &[u8], at: usize, bytes: &[u8]) -> bool
    requires { length bytes.now ≤ length (drop at s.now) }
    ensures { result ≡ same_bytes (take (length bytes.now) (drop at s.now)) bytes.now }
{
    bytes_at(s, at, bytes.len()) == bytes
}

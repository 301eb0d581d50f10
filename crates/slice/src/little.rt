// The numbers that bytes of a slice spell, low byte first. Both ask that the bytes are there: a reader tests that first.
ghost use Rattle.std.specs.Prelude.{◌≡◌, ◌+◌, ◌<◌, ◌≤◌, length, take, drop};
ghost use Rattle.format.specs.GrammarFields.{little};

// A byte as a wider number.
pub fn wide(x: u8) -> u32
    ensures { (result ≡ x) × (result < 256) }
{
    x as u32
}

// The number that four bytes of the slice spell.
pub fn u32_at(s: &[u8], at: usize) -> u32
    requires { at + 4 ≤ length s.now }
    ensures { result ≡ little (take 4 (drop at s.now)) }
{
    wide(s[at]) + wide(s[at + 1]) * 256 + wide(s[at + 2]) * 65536 + wide(s[at + 3]) * 16777216
}

// The number that eight bytes of the slice spell.
pub fn u64_at(s: &[u8], at: usize) -> u64
    requires { at + 8 ≤ length s.now }
    ensures { result ≡ little (take 8 (drop at s.now)) }
{
    u32_at(s, at) as u64 + u32_at(s, at + 4) as u64 * 4294967296
}

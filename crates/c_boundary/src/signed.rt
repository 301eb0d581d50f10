// Signed numbers.
ghost use Rattle.std.specs.Prelude.{◌≡◌};
ghost use Rattle.c_boundary.specs.Status.{complement};

// A signed number in 64 bits. Ruled out: the sign left out, one too few below 0.
pub fn complement_of(z: i64) -> u64
    ensures { result ≡ complement z }
{
    if z < 0 {
        return 18446744073709551615 - ((-1 - z) as u64);
    }
    z as u64
}

// The same of narrower numbers.
pub fn complement_of_i32(z: i32) -> u64
    ensures { result ≡ complement z }
{
    complement_of(z as i64)
}

// The same of a byte: its sign is filled up to 64 bits.
pub fn complement_of_i8(z: i8) -> u64
    ensures { result ≡ complement z }
{
    complement_of(z as i64)
}

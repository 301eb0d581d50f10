// Numbers as a request spells them.
ghost use Rattle.std.specs.Prelude.{◌≡◌, ◌≤◌, ◌<◌, IfSome};
ghost use Rattle.text_read.specs.Inner.Numbers.{digit_of, spelt};

// What a byte is worth as a digit, `0` to `9` or `a` to `f`.
pub fn digit(b: u8) -> Option<u8>
    ensures value { result ≡ digit_of b }
    ensures bound { IfSome result (λ d. d < 16) }
{
    match b {
        b'0'..=b'9' => Some(b - b'0'),
        b'a'..=b'f' => Some(b - b'a' + 10),
        _ => None,
    }
}

// The byte that two digits spell.
pub fn pair(high: u8, low: u8) -> Option<u8> {
    Some(digit(high)? * 16 + digit(low)?)
}

// The number that s spells in base, where it is at most `most`. Zeros in front are free.
pub fn unsigned(s: &[u8], base: u64, most: u64) -> Option<u64>
    ensures most { IfSome result (λ n. n ≤ most) }
    ensures value { result ≡ spelt base most s.now }
{
    if s.is_empty() {
        return None;
    }
    let mut value: u64 = 0;
    for b in s {
        let d = u64::from(digit(*b)?);
        if base <= d {
            return None;
        }
        value = value.checked_mul(base)?.checked_add(d)?;
        if most < value {
            return None;
        }
    }
    Some(value)
}

// Bytes as a request spells them: two digits each, or `-` where there are none.
ghost use Rattle.std.specs.Prelude.{◌≤◌, length, IfSome};

use crate::number::pair;

// Reads the bytes into lent space: how many they are, or none where the word spells no bytes, or more than there is
// room for.
pub fn read(word: &[u8], space: &mut [u8]) -> Option<usize>
    ensures { IfSome result (λ n. n ≤ length space.new) }
{
    if word == b"-".as_slice() {
        return Some(0);
    }
    let (pairs, odd) = word.as_chunks::<2>();
    if pairs.is_empty() || !odd.is_empty() || space.len() < pairs.len() {
        return None;
    }
    for (byte, [high, low]) in space.iter_mut().zip(pairs) {
        *byte = pair(*high, *low)?;
    }
    Some(pairs.len())
}

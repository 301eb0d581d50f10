// reader.rs: the file is a slice, and a cursor by value says how far it is read. Reading a run of bytes.
ghost use Rattle.std.specs.Prelude.{◌≡◌, length, drop};
ghost use Rattle.format.specs.Read as read;
ghost use Rattle.slice.specs.Inner.Results.{cursor_result};

use format::refusal::Refusal;

// A place in a file: the Rust's `SafeReader` without the file, the limits and the counts.
#[derive(Clone, Copy)]
pub struct Cursor {
    pub at: usize,
}

// How many bytes there are from the cursor on.
pub fn remaining(s: &[u8], cursor: Cursor) -> usize
    ensures { result ≡ length (drop cursor.at s.now) }
{
    let at = cursor.at;
    if at <= s.len() { s.len() - at } else { 0 }
}

// The refusal where n bytes are wanted at a place and there are fewer.
pub fn short(n: usize, at: usize) -> Refusal
    ensures { result ≡ read.short n at }
{
    if n <= 18446744073709551615 - at {
        Refusal::Truncated(at)
    } else {
        Refusal::Overflow
    }
}

// Passes over n bytes. Ruled out: a run that ends behind the file, 1 where 2 holds.
pub fn read_exact(s: &[u8], cursor: Cursor, n: usize) -> Result<Cursor, Refusal>
    ensures { result ≡ cursor_result (read.run n cursor.at (drop cursor.at s.now)) }
{
    let at = cursor.at;
    if remaining(s, cursor) < n {
        return Err(short(n, at));
    }
    Ok(Cursor { at: at + n })
}

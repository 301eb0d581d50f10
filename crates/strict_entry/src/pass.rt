// Entries passed over: as crates/read_entry/src/pass.rt does, by the stricter grammar, and nothing is counted.
ghost use Rattle.std.specs.Prelude.{◌≡◌, drop};
ghost use Rattle.format.specs.Read.{many};
ghost use Rattle.format.specs.ReadFields.{string};
ghost use Rattle.format_strict.specs.ReadStrict as strict;
ghost use Rattle.slice.specs.Inner.Results.{cursor_result};

use crate::int::pass_int;
use format::refusal::Refusal;
use read_field::field::read_u8;
use read_field::string::read_string_lua54;
use slice::cursor::{Cursor, read_exact};

// A string that may be absent.
pub fn pass_string(s: &[u8], cursor: Cursor, max_string_bytes: usize) -> Result<Cursor, Refusal>
    ensures { result ≡ cursor_result (string max_string_bytes cursor.at (drop cursor.at s.now)) }
{
    let (_, next) = read_string_lua54(s, cursor, max_string_bytes)?;
    Ok(next)
}

// A string that must be there. Ruled out: an absent one passed over, its refusal at the place behind the size.
fn pass_present(s: &[u8], cursor: Cursor, max_string_bytes: usize) -> Result<Cursor, Refusal>
    ensures { result ≡ cursor_result (strict.present max_string_bytes cursor.at (drop cursor.at s.now)) }
{
    let (string, next) = read_string_lua54(s, cursor, max_string_bytes)?;
    match string {
        None => Err(Refusal::NullString(cursor.at)),
        Some(_) => Ok(next),
    }
}

// What follows a tag, which stands at `place`.
fn pass_tagged(
    s: &[u8],
    cursor: Cursor,
    max_string_bytes: usize,
    place: usize,
    tag: u8,
) -> Result<Cursor, Refusal>
    ensures { result ≡ cursor_result (strict.strict_tagged max_string_bytes place tag cursor.at (drop cursor.at s.now)) }
{
    match tag {
        0 => Ok(cursor),
        1 => Ok(cursor),
        17 => Ok(cursor),
        3 | 19 => read_exact(s, cursor, 8),
        4 | 20 => pass_present(s, cursor, max_string_bytes),
        _ => Err(Refusal::ConstantTag(place)),
    }
}

// A constant: its tag, and what follows by the tag. Ruled out: a tag that is refused at the place behind it.
fn pass_constant(s: &[u8], cursor: Cursor, max_string_bytes: usize) -> Result<Cursor, Refusal>
    ensures { result ≡ cursor_result (strict.strict_constant max_string_bytes cursor.at (drop cursor.at s.now)) }
{
    let (value, next) = read_u8(s, cursor)?;
    pass_tagged(s, next, max_string_bytes, cursor.at, value)
}

// Two ints, as of an anchor and of a local variable behind its name.
fn pass_two(s: &[u8], cursor: Cursor) -> Result<Cursor, Refusal>
    ensures { result ≡ cursor_result (strict.strict_anchor cursor.at (drop cursor.at s.now)) }
{
    let next = pass_int(s, cursor)?;
    pass_int(s, next)
}

// A local variable: its name, which may be absent, and the two ints between which it is live. Ruled out: an absent name refused.
fn pass_local(s: &[u8], cursor: Cursor, max_string_bytes: usize) -> Result<Cursor, Refusal>
    ensures { result ≡ cursor_result (strict.strict_local max_string_bytes cursor.at (drop cursor.at s.now)) }
{
    let next = pass_string(s, cursor, max_string_bytes)?;
    pass_two(s, next)
}

// Passes over n constants. Ruled out: the last one left out, the first refusal not the one that is given.
pub fn pass_constants(
    s: &[u8],
    cursor: Cursor,
    n: usize,
    max_string_bytes: usize,
) -> Result<Cursor, Refusal>
    ensures { result ≡ cursor_result (many n (strict.strict_constant max_string_bytes) cursor.at (drop cursor.at s.now)) }
{
    let mut next = cursor;
    for _ in 0..n {
        next = pass_constant(s, next, max_string_bytes)?;
    }
    Ok(next)
}

// Passes over n anchors. Ruled out: one int an anchor.
pub fn pass_anchors(s: &[u8], cursor: Cursor, n: usize) -> Result<Cursor, Refusal>
    ensures { result ≡ cursor_result (many n strict.strict_anchor cursor.at (drop cursor.at s.now)) }
{
    let mut next = cursor;
    for _ in 0..n {
        next = pass_two(s, next)?;
    }
    Ok(next)
}

// Passes over n local variables. Ruled out: the name passed over without its bytes.
pub fn pass_locals(
    s: &[u8],
    cursor: Cursor,
    n: usize,
    max_string_bytes: usize,
) -> Result<Cursor, Refusal>
    ensures { result ≡ cursor_result (many n (strict.strict_local max_string_bytes) cursor.at (drop cursor.at s.now)) }
{
    let mut next = cursor;
    for _ in 0..n {
        next = pass_local(s, next, max_string_bytes)?;
    }
    Ok(next)
}

// Passes over n strings. Ruled out: an absent string refused.
pub fn pass_strings(
    s: &[u8],
    cursor: Cursor,
    n: usize,
    max_string_bytes: usize,
) -> Result<Cursor, Refusal>
    ensures { result ≡ cursor_result (many n (string max_string_bytes) cursor.at (drop cursor.at s.now)) }
{
    let mut next = cursor;
    for _ in 0..n {
        next = pass_string(s, next, max_string_bytes)?;
    }
    Ok(next)
}

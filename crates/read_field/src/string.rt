// Strings behind their size.
ghost use Rattle.std.specs.Prelude.{◌≡◌, drop};
ghost use Rattle.format.specs.ReadFields.{content, string};
ghost use Rattle.format_spelling.specs.ReadSpelling as count;
ghost use Rattle.format_spelling.specs.Inner.Tally.{Room, Adds};
ghost use Rattle.read_field.specs.Shown.{string_result};

use crate::varint::{read_value, tally_varint};
use format::refusal::Refusal;
use format_spelling::tally::Tally;
use slice::cursor::{Cursor, read_exact};

// A string that is there: the place of its first byte, and how many there are.
#[derive(Clone, Copy)]
pub struct StringAt {
    pub place: usize,
    pub len: usize,
}

// A string behind its size, which began at `first`: its length plus one, or 0 of an absent one.
// Ruled out: a length of the limit refused, the content looked for before its length is tested.
fn read_content(
    s: &[u8],
    first: usize,
    size: u64,
    cursor: Cursor,
    max_string_bytes: usize,
) -> Result<(Option<StringAt>, Cursor), Refusal>
    ensures { result ≡ string_result (content max_string_bytes first size cursor.at (drop cursor.at s.now)) }
{
    if size == 0 {
        return Ok((None, cursor));
    }
    let len = (size - 1) as usize;
    if max_string_bytes < len {
        return Err(Refusal::StringBytes(first));
    }
    let end = read_exact(s, cursor, len)?;
    Ok((
        Some(StringAt {
            place: cursor.at,
            len: len,
        }),
        end,
    ))
}

// Reads a string: its size and its bytes. Ruled out: the place behind the size as that of a refusal.
pub fn read_string_lua54(
    s: &[u8],
    cursor: Cursor,
    max_string_bytes: usize,
) -> Result<(Option<StringAt>, Cursor), Refusal>
    ensures { result ≡ string_result (string max_string_bytes cursor.at (drop cursor.at s.now)) }
{
    let (size, next) = read_value(s, cursor)?;
    read_content(s, cursor.at, size, next, max_string_bytes)
}

// The same, its size counted where it is padded. Ruled out: the size of an absent string not counted.
pub fn tally_string(
    s: &[u8],
    cursor: Cursor,
    max_string_bytes: usize,
    tally: &mut Tally,
) -> Result<(Option<StringAt>, Cursor), Refusal>
    requires { Room tally.old cursor.at }
    ensures value { result ≡ string_result (string max_string_bytes cursor.at (drop cursor.at s.now)) }
    ensures adds { Adds (string max_string_bytes cursor.at (drop cursor.at s.now)) (count.string cursor.at (drop cursor.at s.now)) tally.old tally.new }
{
    let (size, next) = tally_varint(s, cursor, tally)?;
    read_content(s, cursor.at, size, next, max_string_bytes)
}

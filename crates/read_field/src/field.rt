// Fields of 1, 4 and 8 bytes, low byte first.
ghost use Rattle.std.specs.Prelude.{◌≡◌, drop};
ghost use Rattle.format.specs.ReadFields.{field};
ghost use Rattle.read_field.specs.Shown.{shown};

use format::refusal::Refusal;
use slice::cursor::{Cursor, remaining, short};
use slice::little::{u32_at, u64_at};

// Reads a byte. Ruled out: the byte before the cursor, a refusal where the last byte stands at the cursor.
pub fn read_u8(s: &[u8], cursor: Cursor) -> Result<(u8, Cursor), Refusal>
    ensures { result ≡ shown (field 1 cursor.at (drop cursor.at s.now)) }
{
    let at = cursor.at;
    if at < s.len() {
        return Ok((s[at], Cursor { at: at + 1 }));
    }
    Err(short(1, at))
}

// Reads four bytes, low byte first. Ruled out: high byte first, a refusal with the place of the missing byte instead of the field's.
pub fn read_u32_le(s: &[u8], cursor: Cursor) -> Result<(u32, Cursor), Refusal>
    ensures { result ≡ shown (field 4 cursor.at (drop cursor.at s.now)) }
{
    let at = cursor.at;
    if remaining(s, cursor) < 4 {
        return Err(short(4, at));
    }
    Ok((u32_at(s, at), Cursor { at: at + 4 }))
}

// Reads eight bytes, low byte first. Ruled out: the two halves swapped, a cursor that stays where it was.
pub fn read_u64_le(s: &[u8], cursor: Cursor) -> Result<(u64, Cursor), Refusal>
    ensures { result ≡ shown (field 8 cursor.at (drop cursor.at s.now)) }
{
    let at = cursor.at;
    if remaining(s, cursor) < 8 {
        return Err(short(8, at));
    }
    Ok((u64_at(s, at), Cursor { at: at + 8 }))
}

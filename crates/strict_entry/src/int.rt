// Numbers that Lua's own loader reads as ints (`loadInt` of lundump.c).
ghost use Rattle.std.specs.Prelude.{◌≡◌, drop};
ghost use Rattle.format_strict.specs.ReadStrict as strict;
ghost use Rattle.slice.specs.Inner.Results.{cursor_result};
ghost use Rattle.read_field.specs.Shown.{shown};

use format::refusal::Refusal;
use read_field::varint::read_value;
use slice::cursor::Cursor;

// An int. Ruled out: 2^31 - 128 taken, a refusal of a number that is cut short, one at the place behind the number.
pub fn read_int(s: &[u8], cursor: Cursor) -> Result<(u64, Cursor), Refusal>
    ensures { result ≡ shown (strict.int cursor.at (drop cursor.at s.now)) }
{
    let (value, next) = read_value(s, cursor)?;
    if value >= 2147483520 {
        return Err(Refusal::IntOverflow(cursor.at));
    }
    Ok((value, next))
}

// The same, passed over.
pub fn pass_int(s: &[u8], cursor: Cursor) -> Result<Cursor, Refusal>
    ensures { result ≡ cursor_result (strict.int cursor.at (drop cursor.at s.now)) }
{
    let (_, next) = read_int(s, cursor)?;
    Ok(next)
}

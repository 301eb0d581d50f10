// Numbers of variable length.
ghost use Rattle.std.specs.Prelude.{◌≡◌, drop};
ghost use Rattle.format.specs.ReadFields.{number};
ghost use Rattle.format_spelling.specs.ReadSpelling.{is_padded};
ghost use Rattle.format_spelling.specs.ReadSpelling as count;
ghost use Rattle.format_spelling.specs.Inner.Tally.{Room, Adds};
ghost use Rattle.read_field.specs.Shown.{shown, number_result};

use format::refusal::Refusal;
use format_spelling::tally::{Tally, add_number};
use slice::cursor::{Cursor, short};
use slice::little::wide;

// A number of any length.
fn read_groups(s: &[u8], cursor: Cursor) -> Result<(u64, Cursor), Refusal>
    ensures { result ≡ shown (number cursor.at (drop cursor.at s.now)) }
{
    let mut value: u64 = 0;
    for i in cursor.at..s.len() {
        if value >= 144115188075855871 {
            return Err(Refusal::VarintOverflow);
        }
        let byte = wide(s[i]) as u64;
        if byte >= 128 {
            return Ok((value * 128 + (byte - 128), Cursor { at: i + 1 }));
        }
        value = value * 128 + byte;
    }
    Err(short(1, cursor.at.max(s.len())))
}

// A number. Most are one byte, so that is tried first, and it is never padded; apart from the loop it is short enough to stand in every caller.
// A longer one is padded where its first group is 0: only then is there a shorter spelling.
// Ruled out: low group first, a number that is cut short reported as overflow, padded by any other first group than 0.
pub fn read_varint_lua54(s: &[u8], cursor: Cursor) -> Result<(u64, Cursor, bool), Refusal>
    ensures { result ≡ number_result (is_padded (drop cursor.at s.now)) (number cursor.at (drop cursor.at s.now)) }
{
    let at = cursor.at;
    if s.len() <= at {
        return Err(short(1, at));
    }
    let byte = wide(s[at]) as u64;
    if byte >= 128 {
        return Ok((byte - 128, Cursor { at: at + 1 }, false));
    }
    let (value, next) = read_groups(s, cursor)?;
    Ok((value, next, byte == 0))
}

// The same, for callers that do not ask how it is spelt.
pub fn read_value(s: &[u8], cursor: Cursor) -> Result<(u64, Cursor), Refusal>
    ensures { result ≡ shown (number cursor.at (drop cursor.at s.now)) }
{
    let (value, next, _) = read_varint_lua54(s, cursor)?;
    Ok((value, next))
}

// The same, counted. Ruled out: a number counted that is not padded, one that is counted by its zero groups.
pub fn tally_varint(s: &[u8], cursor: Cursor, tally: &mut Tally) -> Result<(u64, Cursor), Refusal>
    requires { Room tally.old cursor.at }
    ensures value { result ≡ shown (number cursor.at (drop cursor.at s.now)) }
    ensures adds { Adds (number cursor.at (drop cursor.at s.now)) (count.number cursor.at (drop cursor.at s.now)) tally.old tally.new }
{
    let (value, next, padded) = read_varint_lua54(s, cursor)?;
    add_number(tally, padded);
    Ok((value, next))
}

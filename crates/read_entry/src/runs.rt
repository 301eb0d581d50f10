// Lists whose items have a fixed width: passed over by arithmetic, however many there are.
ghost use Rattle.std.specs.Prelude.{◌≡◌, drop};
ghost use Rattle.format.specs.Read.{many};
ghost use Rattle.format.specs.ReadFields.{field};
ghost use Rattle.format.specs.ReadChunk.{upvalue};
ghost use Rattle.slice.specs.Inner.Results.{cursor_result};

use format::refusal::Refusal;
use slice::cursor::{Cursor, remaining, short};

// Passes over n instruction words. Ruled out: one word too few, the place of a missing byte instead of that of its word.
pub fn skip_words(s: &[u8], cursor: Cursor, n: usize) -> Result<Cursor, Refusal>
    ensures { result ≡ cursor_result (many n (field 4) cursor.at (drop cursor.at s.now)) }
{
    let at = cursor.at;
    let there = remaining(s, cursor) / 4;
    if n <= there {
        return Ok(Cursor { at: at + n * 4 });
    }
    Err(short(4, at + there * 4))
}

// Passes over n upvalues of three bytes. Ruled out: two bytes accepted for the last one, its place instead of that of its missing byte.
pub fn skip_upvalues(s: &[u8], cursor: Cursor, n: usize) -> Result<Cursor, Refusal>
    ensures { result ≡ cursor_result (many n upvalue cursor.at (drop cursor.at s.now)) }
{
    let at = cursor.at;
    let there = remaining(s, cursor);
    if n <= there / 3 {
        return Ok(Cursor { at: at + n * 3 });
    }
    Err(short(1, at + there))
}

// Instruction words, constants and upvalues.
ghost use Rattle.std.specs.Prelude.{◌≡◌, drop};
ghost use Rattle.format.specs.ReadFields.{field};
ghost use Rattle.format.specs.ReadChunk as spec;
ghost use Rattle.read_field.specs.Shown.{shown};
ghost use Rattle.read_entry.specs.Shown.{constant_result};
ghost use Rattle.read_nth.specs.Inner.Nth.{entry_at};
ghost use Rattle.read_nth.specs.Shown.{upvalue_result};

use format::entry::UpvalueDesc;
use format::refusal::Refusal;
use read_entry::constant::{ConstantValue, read_constant};
use read_entry::pass::pass_constants;
use read_entry::runs::{skip_upvalues, skip_words};
use read_field::field::{read_u8, read_u32_le};
use slice::cursor::Cursor;

// The word with a number, from 0, of the words that begin at the cursor. Ruled out: the word before, the bytes of a word taken as entries.
pub fn nth_word(s: &[u8], cursor: Cursor, entry: usize) -> Result<(u32, Cursor), Refusal>
    ensures { result ≡ shown (entry_at entry (field 4) cursor.at (drop cursor.at s.now)) }
{
    let next = skip_words(s, cursor, entry)?;
    read_u32_le(s, next)
}

// The constant with a number, from 0, of those that begin at the cursor. Ruled out: the first constant whatever the number, one constant too far.
pub fn nth_constant(
    s: &[u8],
    cursor: Cursor,
    entry: usize,
    max_string_bytes: usize,
) -> Result<(ConstantValue, Cursor), Refusal>
    ensures { result ≡ constant_result (entry_at entry (spec.constant max_string_bytes) cursor.at (drop cursor.at s.now)) }
{
    let mut unused = [0usize; 4];
    let next = pass_constants(s, cursor, entry, max_string_bytes, &mut unused)?;
    read_constant(s, next, max_string_bytes)
}

// One upvalue: three bytes. Ruled out: instack and idx exchanged, the same byte three times.
pub fn read_upvalue(s: &[u8], cursor: Cursor) -> Result<(UpvalueDesc, Cursor), Refusal>
    ensures { result ≡ upvalue_result (spec.upvalue cursor.at (drop cursor.at s.now)) }
{
    let (instack, behind) = read_u8(s, cursor)?;
    let (idx, further) = read_u8(s, behind)?;
    let (kind, next) = read_u8(s, further)?;
    Ok((UpvalueDesc { instack, idx, kind }, next))
}

// The upvalue with a number, from 0, of those that begin at the cursor. Ruled out: two bytes an upvalue, the upvalue behind it.
pub fn nth_upvalue(s: &[u8], cursor: Cursor, entry: usize) -> Result<(UpvalueDesc, Cursor), Refusal>
    ensures { result ≡ upvalue_result (entry_at entry spec.upvalue cursor.at (drop cursor.at s.now)) }
{
    let next = skip_upvalues(s, cursor, entry)?;
    read_upvalue(s, next)
}

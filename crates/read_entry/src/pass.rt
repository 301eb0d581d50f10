// Entries that are passed over, their numbers counted where they are padded and their strings where the copy fills them.
// Nothing of a value is kept, so that a pass over a whole chunk costs little; constant.rt and debug.rt read values.
ghost use Rattle.std.specs.Prelude.{◌≡◌, drop};
ghost use Rattle.format.specs.Read.{many};
ghost use Rattle.format.specs.ReadFields.{field, number, string};
ghost use Rattle.format.specs.ReadChunk as spec;
ghost use Rattle.format_spelling.specs.Spelling.{◌⊕◌};
ghost use Rattle.format_spelling.specs.ReadSpelling as count;
ghost use Rattle.format_spelling.specs.Inner.Tally.{counts, Fits, Room, Adds};
ghost use Rattle.slice.specs.Inner.Results.{cursor_result};
ghost use Rattle.read_entry.specs.Inner.Absent.{of_string};

use format::refusal::Refusal;
use format::spelling::Spelling;
use format_spelling::tally::{Tally, add};
use read_field::field::{read_u8, read_u64_le};
use read_field::string::{StringAt, tally_string};
use read_field::varint::tally_varint;
use slice::cursor::Cursor;

// Eight bytes.
fn pass_eight(s: &[u8], cursor: Cursor) -> Result<Cursor, Refusal>
    ensures { result ≡ cursor_result (field 8 cursor.at (drop cursor.at s.now)) }
{
    let (_, next) = read_u64_le(s, cursor)?;
    Ok(next)
}

// A number.
fn pass_number(s: &[u8], cursor: Cursor, tally: &mut Tally) -> Result<Cursor, Refusal>
    requires { Room tally.old cursor.at }
    ensures value { result ≡ cursor_result (number cursor.at (drop cursor.at s.now)) }
    ensures adds { Adds (number cursor.at (drop cursor.at s.now)) (count.number cursor.at (drop cursor.at s.now)) tally.old tally.new }
{
    let (_, next) = tally_varint(s, cursor, tally)?;
    Ok(next)
}

// A string that may be absent, as the name of an upvalue.
fn pass_string(
    s: &[u8],
    cursor: Cursor,
    max_string_bytes: usize,
    tally: &mut Tally,
) -> Result<Cursor, Refusal>
    requires { Room tally.old cursor.at }
    ensures value { result ≡ cursor_result (string max_string_bytes cursor.at (drop cursor.at s.now)) }
    ensures adds { Adds (string max_string_bytes cursor.at (drop cursor.at s.now)) (count.string cursor.at (drop cursor.at s.now)) tally.old tally.new }
{
    let (_, next) = tally_string(s, cursor, max_string_bytes, tally)?;
    Ok(next)
}

// Counts an absent string, which the copy fills. Ruled out: an empty string counted.
fn add_absent(tally: &mut Tally, string: Option<StringAt>)
    requires { Fits (counts tally.old) (of_string string) }
    ensures { counts tally.new ≡ counts tally.old ⊕ of_string string }
{
    match string {
        Some(_) => {}
        None => {
            add(
                tally,
                Spelling {
                    padded: 0,
                    filled: 1,
                    sources: 0,
                    repeated: 0,
                },
            );
        }
    }
}

// A string that the copy fills where it is absent: a constant, or the name of a local variable. Ruled out: an absent one not counted.
fn pass_filled(
    s: &[u8],
    cursor: Cursor,
    max_string_bytes: usize,
    tally: &mut Tally,
) -> Result<Cursor, Refusal>
    requires { Room tally.old cursor.at }
    ensures value { result ≡ cursor_result (string max_string_bytes cursor.at (drop cursor.at s.now)) }
    ensures adds { Adds (string max_string_bytes cursor.at (drop cursor.at s.now)) (count.always max_string_bytes cursor.at (drop cursor.at s.now)) tally.old tally.new }
{
    let (string, next) = tally_string(s, cursor, max_string_bytes, tally)?;
    add_absent(tally, string);
    Ok(next)
}

// What follows a tag, which stands at `place`.
fn pass_tagged(
    s: &[u8],
    cursor: Cursor,
    max_string_bytes: usize,
    place: usize,
    tag: u8,
    tally: &mut Tally,
) -> Result<Cursor, Refusal>
    requires { Room tally.old cursor.at }
    ensures value { result ≡ cursor_result (spec.tagged max_string_bytes place tag cursor.at (drop cursor.at s.now)) }
    ensures adds { Adds (spec.tagged max_string_bytes place tag cursor.at (drop cursor.at s.now)) (count.tagged max_string_bytes tag cursor.at (drop cursor.at s.now)) tally.old tally.new }
{
    match tag {
        0 => Ok(cursor),
        1 => Ok(cursor),
        17 => Ok(cursor),
        3 | 19 => pass_eight(s, cursor),
        4 | 20 => pass_filled(s, cursor, max_string_bytes, tally),
        _ => Err(Refusal::ConstantTag(place)),
    }
}

// A constant: its tag, and what follows by the tag. Ruled out: a tag that is refused at the place behind it.
fn pass_constant(
    s: &[u8],
    cursor: Cursor,
    max_string_bytes: usize,
    tally: &mut Tally,
) -> Result<Cursor, Refusal>
    requires { Room tally.old cursor.at }
    ensures value { result ≡ cursor_result (spec.constant max_string_bytes cursor.at (drop cursor.at s.now)) }
    ensures adds { Adds (spec.constant max_string_bytes cursor.at (drop cursor.at s.now)) (count.constant max_string_bytes cursor.at (drop cursor.at s.now)) tally.old tally.new }
{
    let (value, next) = read_u8(s, cursor)?;
    pass_tagged(s, next, max_string_bytes, cursor.at, value, tally)
}

// An anchor: its pc and its line.
fn pass_anchor(s: &[u8], cursor: Cursor, tally: &mut Tally) -> Result<Cursor, Refusal>
    requires { Room tally.old cursor.at }
    ensures value { result ≡ cursor_result (spec.anchor cursor.at (drop cursor.at s.now)) }
    ensures adds { Adds (spec.anchor cursor.at (drop cursor.at s.now)) (count.anchor cursor.at (drop cursor.at s.now)) tally.old tally.new }
{
    let next = pass_number(s, cursor, tally)?;
    pass_number(s, next, tally)
}

// A local variable: its name, and the two numbers between which it is live.
fn pass_local(
    s: &[u8],
    cursor: Cursor,
    max_string_bytes: usize,
    tally: &mut Tally,
) -> Result<Cursor, Refusal>
    requires { Room tally.old cursor.at }
    ensures value { result ≡ cursor_result (spec.local max_string_bytes cursor.at (drop cursor.at s.now)) }
    ensures adds { Adds (spec.local max_string_bytes cursor.at (drop cursor.at s.now)) (count.local max_string_bytes cursor.at (drop cursor.at s.now)) tally.old tally.new }
{
    let behind = pass_filled(s, cursor, max_string_bytes, tally)?;
    let next = pass_number(s, behind, tally)?;
    pass_number(s, next, tally)
}

// Passes over n constants. Ruled out: a constant passed over by its tag alone, the last one left out, the count of the last one only.
pub fn pass_constants(
    s: &[u8],
    cursor: Cursor,
    n: usize,
    max_string_bytes: usize,
    tally: &mut Tally,
) -> Result<Cursor, Refusal>
    requires { Room tally.old cursor.at }
    ensures value { result ≡ cursor_result (many n (spec.constant max_string_bytes) cursor.at (drop cursor.at s.now)) }
    ensures adds { Adds (many n (spec.constant max_string_bytes) cursor.at (drop cursor.at s.now)) (count.many n (spec.constant max_string_bytes) (count.constant max_string_bytes) cursor.at (drop cursor.at s.now)) tally.old tally.new }
{
    let mut next = cursor;
    for _constant in 0..n {
        next = pass_constant(s, next, max_string_bytes, tally)?;
    }
    Ok(next)
}

// Passes over n anchors. Ruled out: one number an anchor, the last anchor left out.
pub fn pass_anchors(
    s: &[u8],
    cursor: Cursor,
    n: usize,
    tally: &mut Tally,
) -> Result<Cursor, Refusal>
    requires { Room tally.old cursor.at }
    ensures value { result ≡ cursor_result (many n spec.anchor cursor.at (drop cursor.at s.now)) }
    ensures adds { Adds (many n spec.anchor cursor.at (drop cursor.at s.now)) (count.many n spec.anchor count.anchor cursor.at (drop cursor.at s.now)) tally.old tally.new }
{
    let mut next = cursor;
    for _ in 0..n {
        next = pass_anchor(s, next, tally)?;
    }
    Ok(next)
}

// Passes over n local variables. Ruled out: an absent name that is refused, the name passed over without its bytes.
pub fn pass_locals(
    s: &[u8],
    cursor: Cursor,
    n: usize,
    max_string_bytes: usize,
    tally: &mut Tally,
) -> Result<Cursor, Refusal>
    requires { Room tally.old cursor.at }
    ensures value { result ≡ cursor_result (many n (spec.local max_string_bytes) cursor.at (drop cursor.at s.now)) }
    ensures adds { Adds (many n (spec.local max_string_bytes) cursor.at (drop cursor.at s.now)) (count.many n (spec.local max_string_bytes) (count.local max_string_bytes) cursor.at (drop cursor.at s.now)) tally.old tally.new }
{
    let mut next = cursor;
    for _ in 0..n {
        next = pass_local(s, next, max_string_bytes, tally)?;
    }
    Ok(next)
}

// Passes over n strings. Ruled out: an absent string that takes no bytes, the limit tested against all strings together.
pub fn pass_strings(
    s: &[u8],
    cursor: Cursor,
    n: usize,
    max_string_bytes: usize,
    tally: &mut Tally,
) -> Result<Cursor, Refusal>
    requires { Room tally.old cursor.at }
    ensures value { result ≡ cursor_result (many n (string max_string_bytes) cursor.at (drop cursor.at s.now)) }
    ensures adds { Adds (many n (string max_string_bytes) cursor.at (drop cursor.at s.now)) (count.many n (string max_string_bytes) count.string cursor.at (drop cursor.at s.now)) tally.old tally.new }
{
    let mut next = cursor;
    for _ in 0..n {
        next = pass_string(s, next, max_string_bytes, tally)?;
    }
    Ok(next)
}

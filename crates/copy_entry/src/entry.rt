// The entries of a function's lists, read at a place of the chunk and put at a place of the copy: each is judged where it is copied.
ghost use Rattle.std.specs.Prelude.{◌≡◌, drop, IfOk};
ghost use Rattle.format.specs.Form.{Below};
ghost use Rattle.format.specs.ReadFields.{string};
ghost use Rattle.format.specs.ReadChunk.{constant, anchor, local};
ghost use Rattle.format.specs.Copy.{constant_bytes, anchor_bytes, local_bytes, option_bytes};
ghost use Rattle.copy_put.specs.Inner.Put.{Put, Puts};
ghost use Rattle.slice.specs.Inner.Results.{cursor_result};
ghost use Rattle.copy_entry.specs.Inner.Passed.{cursor_of};
ghost use Rattle.copy_entry.specs.Inner.Value.{Stood, value_bytes};

use copy_put::number::put_varint;
use copy_put::raw::put_between;
use copy_put::text::{put_name, put_string, put_tagged};
use format::refusal::Refusal;
use read_entry::constant::{ConstantValue, read_constant};
use read_entry::debug::{read_anchor, read_local};
use read_field::string::read_string_lua54;
use slice::cursor::Cursor;

// Behind what is read and put: the cursor in the chunk, and the place in the copy.
#[derive(Clone, Copy)]
pub struct Passed {
    pub next: Cursor,
    pub behind: usize,
}

// Reads the name of an upvalue and puts it. Ruled out: an absent name written as empty, a padded size kept.
pub fn copy_name(
    s: &[u8],
    cursor: Cursor,
    max_string_bytes: usize,
    out: &mut [u8],
    at: usize,
) -> Result<Passed, Refusal>
    ensures read_value { cursor_of result ≡ cursor_result (string max_string_bytes cursor.at (drop cursor.at s.now)) }
    ensures puts { IfOk result (λ p. Puts option_bytes (string max_string_bytes cursor.at (drop cursor.at s.now)) at out.old p.next.at p.behind out.new) }
{
    let (string, next) = read_string_lua54(s, cursor, max_string_bytes)?;
    let behind = put_string(s, string, out, at);
    Ok(Passed { next, behind })
}

// Reads an anchor and puts its two numbers. Ruled out: pc and line exchanged, a padded number kept.
pub fn copy_anchor(s: &[u8], cursor: Cursor, out: &mut [u8], at: usize) -> Result<Passed, Refusal>
    ensures read_value { cursor_of result ≡ cursor_result (anchor cursor.at (drop cursor.at s.now)) }
    ensures puts { IfOk result (λ p. Puts anchor_bytes (anchor cursor.at (drop cursor.at s.now)) at out.old p.next.at p.behind out.new) }
{
    let (anchor, next) = read_anchor(s, cursor)?;
    let first = put_varint(out, at, anchor.pc as u64);
    let behind = put_varint(out, first, anchor.line as u64);
    Ok(Passed { next, behind })
}

// Reads a local variable and puts its name and its two numbers. Ruled out: an absent name written as absent, startpc and endpc exchanged.
pub fn copy_local(
    s: &[u8],
    cursor: Cursor,
    max_string_bytes: usize,
    out: &mut [u8],
    at: usize,
) -> Result<Passed, Refusal>
    ensures read_value { cursor_of result ≡ cursor_result (local max_string_bytes cursor.at (drop cursor.at s.now)) }
    ensures puts { IfOk result (λ p. Puts local_bytes (local max_string_bytes cursor.at (drop cursor.at s.now)) at out.old p.next.at p.behind out.new) }
{
    let (local, next) = read_local(s, cursor, max_string_bytes)?;
    let named = put_name(s, local.name, out, at);
    let first = put_varint(out, named, local.startpc as u64);
    let behind = put_varint(out, first, local.endpc as u64);
    Ok(Passed { next, behind })
}

// Puts a constant that was read between two places. A string's size is written anew; any other constant stays as it is.
fn put_value(
    s: &[u8],
    first: usize,
    end: usize,
    value: ConstantValue,
    out: &mut [u8],
    at: usize,
) -> usize
    ensures { Stood s.now first end value → Put (value_bytes s.now first end value) at out.old result out.new }
{
    match value {
        ConstantValue::ShortString(string) => put_tagged(s, 4, string, out, at),
        ConstantValue::LongString(string) => put_tagged(s, 20, string, out, at),
        ConstantValue::Nil => put_between(s, first, end, out, at),
        ConstantValue::Boolean(_) => put_between(s, first, end, out, at),
        ConstantValue::Integer(_) => put_between(s, first, end, out, at),
        ConstantValue::Float(_) => put_between(s, first, end, out, at),
    }
}

// Reads a constant and puts it. Ruled out: a short string written as a long one, a string of size 0 written as absent.
pub fn copy_constant(
    s: &[u8],
    cursor: Cursor,
    max_string_bytes: usize,
    out: &mut [u8],
    at: usize,
) -> Result<Passed, Refusal>
    ensures read_value { cursor_of result ≡ cursor_result (constant max_string_bytes cursor.at (drop cursor.at s.now)) }
    ensures puts { Below 256 s.now → IfOk result (λ p. Puts constant_bytes (constant max_string_bytes cursor.at (drop cursor.at s.now)) at out.old p.next.at p.behind out.new) }
{
    let (value, next) = read_constant(s, cursor, max_string_bytes)?;
    let behind = put_value(s, cursor.at, next.at, value, out, at);
    Ok(Passed { next, behind })
}

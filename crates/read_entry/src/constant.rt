// Constants: a tag, and what follows by the tag.
ghost use Rattle.std.specs.Prelude.{◌≡◌, drop};
ghost use Rattle.std.specs.Int.{w64};
ghost use Rattle.std.proofs.Common.{to_z};
ghost use Rattle.format.specs.ReadChunk as spec;
ghost use Rattle.read_entry.specs.Shown.{constant_result};
ghost use Rattle.read_entry.specs.Inner.Constants.{or_empty, integer_of, float_of, short_string_of, long_string_of};

use format::refusal::Refusal;
use read_field::field::{read_u8, read_u64_le};
use read_field::string::{StringAt, read_string_lua54};
use slice::cursor::Cursor;

// The Rust's `ConstantValue`: of a float the bits, of a string its place and length.
#[derive(Clone, Copy)]
pub enum ConstantValue {
    Nil,
    Boolean(bool),
    Integer(i64),
    Float(u64),
    ShortString(StringAt),
    LongString(StringAt),
}

// The signed number of 64 bits.
fn signed(bits: u64) -> i64
    ensures { result ≡ to_z w64 bits }
{
    if bits < 9223372036854775808 {
        return bits as i64;
    }
    -1 - ((18446744073709551615 - bits) as i64)
}

// A string, or where it is absent an empty one at the place behind its size.
fn or_empty(string: Option<StringAt>, place: usize) -> StringAt
    ensures { result ≡ or_empty string place }
{
    match string {
        Some(present) => present,
        None => StringAt {
            place: place,
            len: 0,
        },
    }
}

// The constant of a tag and what was read behind it.
fn integer(bits: Result<(u64, Cursor), Refusal>) -> Result<(ConstantValue, Cursor), Refusal>
    ensures { result ≡ integer_of bits }
{
    match bits {
        Err(refusal) => Err(refusal),
        Ok((value, next)) => Ok((ConstantValue::Integer(signed(value)), next)),
    }
}

fn float(bits: Result<(u64, Cursor), Refusal>) -> Result<(ConstantValue, Cursor), Refusal>
    ensures { result ≡ float_of bits }
{
    match bits {
        Err(refusal) => Err(refusal),
        Ok((value, next)) => Ok((ConstantValue::Float(value), next)),
    }
}

fn short_string(
    read: Result<(Option<StringAt>, Cursor), Refusal>,
) -> Result<(ConstantValue, Cursor), Refusal>
    ensures { result ≡ short_string_of read }
{
    match read {
        Err(refusal) => Err(refusal),
        Ok((string, next)) => Ok((ConstantValue::ShortString(or_empty(string, next.at)), next)),
    }
}

fn long_string(
    read: Result<(Option<StringAt>, Cursor), Refusal>,
) -> Result<(ConstantValue, Cursor), Refusal>
    ensures { result ≡ long_string_of read }
{
    match read {
        Err(refusal) => Err(refusal),
        Ok((string, next)) => Ok((ConstantValue::LongString(or_empty(string, next.at)), next)),
    }
}

// Behind a tag, which stands at `place`.
fn read_tagged(
    s: &[u8],
    cursor: Cursor,
    max_string_bytes: usize,
    place: usize,
    tag: u8,
) -> Result<(ConstantValue, Cursor), Refusal>
    ensures { result ≡ constant_result (spec.tagged max_string_bytes place tag cursor.at (drop cursor.at s.now)) }
{
    match tag {
        0 => Ok((ConstantValue::Nil, cursor)),
        1 => Ok((ConstantValue::Boolean(false), cursor)),
        17 => Ok((ConstantValue::Boolean(true), cursor)),
        3 => integer(read_u64_le(s, cursor)),
        19 => float(read_u64_le(s, cursor)),
        4 => short_string(read_string_lua54(s, cursor, max_string_bytes)),
        20 => long_string(read_string_lua54(s, cursor, max_string_bytes)),
        _ => Err(Refusal::ConstantTag(place)),
    }
}

// Reads a constant: its tag, and the value that the tag says. Ruled out: the tags of false and true exchanged, a string of size 0 refused.
pub fn read_constant(
    s: &[u8],
    cursor: Cursor,
    max_string_bytes: usize,
) -> Result<(ConstantValue, Cursor), Refusal>
    ensures { result ≡ constant_result (spec.constant max_string_bytes cursor.at (drop cursor.at s.now)) }
{
    let (value, next) = read_u8(s, cursor)?;
    read_tagged(s, next, max_string_bytes, cursor.at, value)
}

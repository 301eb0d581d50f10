// header.rs: the 31 bytes at the front of a chunk.
#![tactic(auto)]

ghost use Rattle.std.specs.Prelude.{◌≡◌, [], ◌∷◌, drop};
ghost use Rattle.format.specs.declared.refusal.Refusal.TheVariants.{Signature};
ghost use Rattle.format.specs.ReadHeader as spec;
ghost use Rattle.slice.specs.Inner.Results.{cursor_result, and_then};
ghost use Rattle.format.specs.GrammarHeader.{header_of, format_warnings};
ghost use Rattle.read_header.specs.Shown.{first_warning};
ghost use Rattle.read_header.specs.Inner.Results.{header_result, refusal_of};

use format::header::{Header, Warning};
use format::refusal::Refusal;
use read_field::field::read_u8;
use slice::bytes::same_bytes;
use slice::cursor::{Cursor, read_exact};

// Passes over bytes that must be these.
pub fn expect(s: &[u8], cursor: Cursor, bytes: &[u8], refusal: Refusal) -> Result<Cursor, Refusal>
    ensures { result ≡ cursor_result (spec.expect bytes.now (λ _. refusal) cursor.at (drop cursor.at s.now)) }
{
    let next = read_exact(s, cursor, bytes.len())?;
    if same_bytes(s, cursor.at, bytes) {
        Ok(next)
    } else {
        Err(refusal)
    }
}

// What the header shows: all but the format byte is fixed.
fn header_of(format: u8) -> Header
    ensures { result ≡ header_of format }
{
    Header {
        version: 0x54,
        format: format,
        instruction_size: 4,
        lua_integer_size: 8,
        sizeof_sizet: 8,
        lua_number_size: 8,
        luac_int: 0x5678,
        luac_num: 0x4077280000000000,
    }
}

// The warning of a format byte at a place.
fn format_warning(place: usize, format: u8) -> Option<Warning>
    ensures { result ≡ first_warning (format_warnings place format) }
{
    if format == 0 {
        None
    } else {
        Some(Warning::NonStandardFormat(place))
    }
}

// The parts of the header that are the same in every chunk.
#[derive(Clone, Copy)]
enum Fixed {
    Signature,
    Version,
    LuacData,
    InstructionSize,
    LuaIntegerSize,
    LuaNumberSize,
    LuacInt,
    LuacNum,
}

// The refusal of a part that is another than it must be.
fn refusal_of(part: Fixed, at: usize) -> Refusal
    ensures { result ≡ refusal_of part at }
{
    match part {
        Fixed::Signature => Refusal::Signature(at),
        Fixed::Version => Refusal::Version(at),
        Fixed::LuacData => Refusal::LuacData(at),
        Fixed::InstructionSize => Refusal::InstructionSize(at),
        Fixed::LuaIntegerSize => Refusal::LuaIntegerSize(at),
        Fixed::LuaNumberSize => Refusal::LuaNumberSize(at),
        Fixed::LuacInt => Refusal::LuacInt(at),
        Fixed::LuacNum => Refusal::LuacNum(at),
    }
}

// Behind what was read, passes over bytes that must be these.
fn and_expect(
    read: Result<Cursor, Refusal>,
    s: &[u8],
    bytes: &[u8],
    part: Fixed,
) -> Result<Cursor, Refusal>
    ensures { result ≡ and_then read (λ at. cursor_result (spec.expect bytes.now (refusal_of part) at (drop at s.now))) }
{
    let cursor = read?;
    expect(s, cursor, bytes, refusal_of(part, cursor.at))
}

// What stands before the format byte.
pub fn before_format(s: &[u8], cursor: Cursor) -> Result<Cursor, Refusal>
    ensures { result ≡ cursor_result (spec.before_format cursor.at (drop cursor.at s.now)) }
{
    let read = Ok(cursor);
    let read = and_expect(read, s, b"\x1bLua", Fixed::Signature);
    and_expect(read, s, b"\x54", Fixed::Version)
}

// What stands behind the format byte.
pub fn behind_format(s: &[u8], cursor: Cursor) -> Result<Cursor, Refusal>
    ensures { result ≡ cursor_result (spec.behind_format cursor.at (drop cursor.at s.now)) }
{
    let read = Ok(cursor);
    let read = and_expect(read, s, b"\x19\x93\r\n\x1a\n", Fixed::LuacData);
    let read = and_expect(read, s, b"\x04", Fixed::InstructionSize);
    let read = and_expect(read, s, b"\x08", Fixed::LuaIntegerSize);
    let read = and_expect(read, s, b"\x08", Fixed::LuaNumberSize);
    let read = and_expect(read, s, b"\x78\x56\0\0\0\0\0\0", Fixed::LuacInt);
    and_expect(read, s, b"\0\0\0\0\0\x28\x77\x40", Fixed::LuacNum)
}

// Reads the header: the parts that are the same in every file are compared, the format byte is shown, with a warning where it is not 0.
// Ruled out: a format other than 0 refused, a refusal with the place of the first byte that differs instead of the part's.
pub fn parse_header_lua54(
    s: &[u8],
    cursor: Cursor,
) -> Result<(Header, Option<Warning>, Cursor), Refusal>
    ensures { result ≡ header_result (spec.header cursor.at (drop cursor.at s.now)) }
{
    let place = before_format(s, cursor)?;
    let (format, behind) = read_u8(s, place)?;
    let next = behind_format(s, behind)?;
    Ok((header_of(format), format_warning(place.at, format), next))
}

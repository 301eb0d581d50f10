// Entries of a function's lists that are read at a place, as numbers: what crate `lafzimdo` exports under the same names, with `lafzimdo_` before them. Each takes the nine limits as they cross the boundary to C, and answers
// an array of numbers, or the refusal.
// Each tests 21 and 22 first, as every call on a chunk does. No pass over the chunk: each costs what its entry costs. Where no such entry begins at the place, the answer is what the bytes there spell; behind the end of the
// chunk there are none.
#![tactic(auto)]

ghost use Rattle.std.specs.Prelude.{◌≡◌};
ghost use Rattle.c_boundary.specs.Status.{in_numbers};
ghost use Rattle.c_entries_at.specs.EntryNumbers.{up_to, delta_number, local_numbers_at, word_at, constant_at, upvalue_at, delta_at, anchor_at, local_at, string_at};

use c_boundary::admit;
use c_entries::entry::{anchor_numbers, constant_numbers, upvalue_numbers};
use c_entries::strings::{length_number, place_number, present_number, string_numbers};
use format::refusal::Refusal;
use read_entry::constant::read_constant;
use read_entry::debug::{LocalAt, read_anchor, read_local};
use read_field::field::{read_u8, read_u32_le};
use read_field::string::read_string_lua54;
use read_nth::code::read_upvalue;
use slice::cursor::Cursor;

// Numbers, and the place behind.
fn up_to_two(n: [u64; 2], to: usize) -> [u64; 3]
    ensures { result ≡ up_to n to }
{
    [n[0], n[1], to as u64]
}

fn up_to_three(n: [u64; 3], to: usize) -> [u64; 4]
    ensures { result ≡ up_to n to }
{
    [n[0], n[1], n[2], to as u64]
}

// The instruction word at a place, and the place behind it. Ruled out: high byte first, the place of the word itself given as the one behind.
pub fn word_at(chunk: &[u8], limits: &[u64; 9], place: usize) -> Result<[u64; 2], Refusal>
    ensures { in_numbers result ≡ word_at limits.now place chunk.now }
{
    admit(chunk, limits)?;
    let (word, next) = read_u32_le(chunk, Cursor { at: place })?;
    Ok([word as u64, next.at as u64])
}

// The constant that begins at a place, and the place behind it. Ruled out: a short string shown as a long one, an integer's magnitude instead of its bits.
pub fn constant_at(chunk: &[u8], limits: &[u64; 9], place: usize) -> Result<[u64; 4], Refusal>
    ensures { in_numbers result ≡ constant_at limits.now place chunk.now }
{
    let limits = admit(chunk, limits)?;
    let (constant, next) = read_constant(chunk, Cursor { at: place }, limits.max_string_bytes)?;
    Ok(up_to_three(constant_numbers(constant), next.at))
}

// The upvalue that begins at a place, and the place behind it. Ruled out: instack and idx exchanged, two bytes an upvalue.
pub fn upvalue_at(chunk: &[u8], limits: &[u64; 9], place: usize) -> Result<[u64; 4], Refusal>
    ensures { in_numbers result ≡ upvalue_at limits.now place chunk.now }
{
    admit(chunk, limits)?;
    let (upvalue, next) = read_upvalue(chunk, Cursor { at: place })?;
    Ok(up_to_three(upvalue_numbers(upvalue), next.at))
}

// A delta's byte as a signed number of 64 bits.
fn delta_number(byte: u8) -> u64
    ensures { result ≡ delta_number byte }
{
    if byte < 128 {
        return byte as u64;
    }
    18446744073709551360 + byte as u64
}

// The line delta at a place, and the place behind it. Ruled out: a byte from 128 up shown as it stands.
pub fn delta_at(chunk: &[u8], limits: &[u64; 9], place: usize) -> Result<[u64; 2], Refusal>
    ensures { in_numbers result ≡ delta_at limits.now place chunk.now }
{
    admit(chunk, limits)?;
    let (delta, next) = read_u8(chunk, Cursor { at: place })?;
    Ok([delta_number(delta), next.at as u64])
}

// The anchor that begins at a place, and the place behind it. Ruled out: pc and line exchanged, the place behind pc given as the one behind.
pub fn anchor_at(chunk: &[u8], limits: &[u64; 9], place: usize) -> Result<[u64; 3], Refusal>
    ensures { in_numbers result ≡ anchor_at limits.now place chunk.now }
{
    admit(chunk, limits)?;
    let (anchor, next) = read_anchor(chunk, Cursor { at: place })?;
    Ok(up_to_two(anchor_numbers(anchor), next.at))
}

fn local_numbers_at(local: LocalAt, to: usize) -> [u64; 6]
    ensures { result ≡ local_numbers_at local.name local.startpc local.endpc to }
{
    [
        present_number(local.name),
        place_number(local.name),
        length_number(local.name),
        local.startpc as u64,
        local.endpc as u64,
        to as u64,
    ]
}

// The local variable that begins at a place, with its name as it is spelt, and the place behind it. Ruled out: an absent name shown as an empty one, startpc and endpc exchanged.
pub fn local_at(chunk: &[u8], limits: &[u64; 9], place: usize) -> Result<[u64; 6], Refusal>
    ensures { in_numbers result ≡ local_at limits.now place chunk.now }
{
    let limits = admit(chunk, limits)?;
    let (local, next) = read_local(chunk, Cursor { at: place }, limits.max_string_bytes)?;
    Ok(local_numbers_at(local, next.at))
}

// An upvalue's name, or a source. Ruled out: an absent string shown as an empty one, a place before its size.
pub fn string_at(chunk: &[u8], limits: &[u64; 9], place: usize) -> Result<[u64; 4], Refusal>
    ensures { in_numbers result ≡ string_at limits.now place chunk.now }
{
    let limits = admit(chunk, limits)?;
    let (string, next) = read_string_lua54(chunk, Cursor { at: place }, limits.max_string_bytes)?;
    Ok(up_to_three(string_numbers(string), next.at))
}

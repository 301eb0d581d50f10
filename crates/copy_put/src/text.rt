// Strings behind their size.
ghost use Rattle.std.specs.Prelude.{◌≡◌, [], ◌∷◌, ◌++◌, suc, ◌-◌, ◌≤◌, length, take, drop};
ghost use Rattle.format.specs.Shortest.{shortest};
ghost use Rattle.copy_put.specs.Inner.Put.{Put};
ghost use Rattle.copy_put.specs.Inner.Text.{There, spelt, spelt_name};

use crate::number::put_varint;
use crate::raw::{put_byte, put_bytes};
use read_field::string::StringAt;
use slice::cursor::{Cursor, remaining};

// A string that is there. Ruled out: the length without the 1 that is added, the bytes before the size.
fn put_present(s: &[u8], string: StringAt, out: &mut [u8], at: usize) -> usize
    ensures { string.len ≤ length s.now - string.place → Put (shortest (suc string.len) ++ take string.len (drop string.place s.now)) at out.old result out.new }
{
    let place = string.place;
    let len = string.len;
    if remaining(s, Cursor { at: place }) < len {
        return at;
    }
    let behind = put_varint(out, at, len as u64 + 1);
    put_bytes(s, place, len, out, behind)
}

// A string, or its absence. Ruled out: an absent string written as empty, nothing written for it.
pub fn put_string(s: &[u8], string: Option<StringAt>, out: &mut [u8], at: usize) -> usize
    ensures { There s.now string → Put (spelt s.now string) at out.old result out.new }
{
    match string {
        None => put_varint(out, at, 0),
        Some(present) => put_present(s, present, out, at),
    }
}

// The name of a local variable: `?` where it is absent. Ruled out: an absent name written as absent, or as empty.
pub fn put_name(s: &[u8], name: Option<StringAt>, out: &mut [u8], at: usize) -> usize
    ensures { There s.now name → Put (spelt_name s.now name) at out.old result out.new }
{
    match name {
        None => {
            let behind = put_varint(out, at, 2);
            put_byte(out, behind, 63)
        }
        Some(present) => put_present(s, present, out, at),
    }
}

// The string of a constant behind its tag. Ruled out: the tag of the other kind of string, a string without its tag.
pub fn put_tagged(s: &[u8], tag: u8, string: StringAt, out: &mut [u8], at: usize) -> usize
    ensures { string.len ≤ length s.now - string.place → Put (tag ∷ (shortest (suc string.len) ++ take string.len (drop string.place s.now))) at out.old result out.new }
{
    let behind = put_byte(out, at, tag);
    put_present(s, string, out, behind)
}

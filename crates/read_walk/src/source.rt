// The source of a function, held against its parent's: few functions spell one, so what is spelt is read again where it is wanted, and a walk hands down a place alone. That place is behind the zero groups of the size, which may be any number of bytes: so what is read again is a few bytes, however many functions ask.
ghost use Rattle.std.specs.Prelude.{◌≡◌, cond, eqb};
ghost use Rattle.read_field.specs.Shown.{option_string};
ghost use Rattle.read_walk.specs.Inner.Source.{SameString, ParentsOwn, source_at, repeats_at, unpadded_at};

use read_field::string::{StringAt, read_string_lua54};
use slice::bytes::{bytes_at, same_bytes};
use slice::cursor::{Cursor, remaining};

// Whether two strings of the slice have the same bytes: their lengths first, so that it costs no more than the first is long. Ruled out: lengths alone compared, places compared.
fn same_string(s: &[u8], first: StringAt, second: StringAt) -> bool
    ensures { SameString s.now first second result }
{
    if first.len != second.len {
        return false;
    }
    let other = bytes_at(s, second.place, second.len);
    if remaining(s, Cursor { at: first.place }) < other.len() {
        return false;
    }
    same_bytes(s, first.place, other)
}

// Whether a source that is spelt is the parent's. Ruled out: an empty one taken for a missing one.
fn parents_own(s: &[u8], spelt: StringAt, parent: Option<StringAt>) -> bool
    ensures { ParentsOwn s.now spelt parent result }
{
    match parent {
        None => false,
        Some(outer) => same_string(s, spelt, outer),
    }
}

// The source that the function at a place spells; none, where it spells none, or where no function stands. It is a function's first field, and read alone: read_front is to have one caller, so that the compiler keeps it in the walk.
pub fn source_at(s: &[u8], max_string_bytes: usize, at: usize) -> Option<StringAt>
    ensures { result ≡ option_string (source_at max_string_bytes s.now at) }
{
    let name = read_string_lua54(s, Cursor { at: at }, max_string_bytes);
    match name {
        Err(_) => None,
        Ok((string, _)) => string,
    }
}

// Whether the source that is spelt at the one place is the one at the other. Ruled out: one that is not spelt taken for the parent's.
pub fn repeats(s: &[u8], max_string_bytes: usize, own: usize, parent: usize) -> bool
    ensures { result ≡ repeats_at max_string_bytes s.now own parent }
{
    let source = source_at(s, max_string_bytes, own);
    let Some(spelt) = source else {
        return false;
    };
    let outer = source_at(s, max_string_bytes, parent);
    parents_own(s, spelt, outer)
}

// Where the same number is spelt without the zero groups before it: a number may begin with as many as its file is long. Ruled out: a group passed over that is not zero.
pub fn unpadded(s: &[u8], at: usize) -> usize
    ensures { result ≡ unpadded_at s.now at }
{
    for place in at..s.len() {
        if s[place] != 0 {
            return place;
        }
    }
    at.max(s.len())
}

// One, where it is so.
pub fn one_where(holds: bool) -> usize
    ensures { result ≡ cond holds 1 0 }
{
    if holds {
        return 1;
    }
    0
}

// One, of any function but main, which has the number 0. Ruled out: main's source counted.
pub fn one_nested(number: usize) -> usize
    ensures { result ≡ cond (eqb number 0) 0 1 }
{
    if number == 0 {
        return 0;
    }
    1
}

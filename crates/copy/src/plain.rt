// A chunk of which no place is spelt otherwise than in its copy: behind its first 32 bytes it is its own copy.
ghost use Rattle.std.specs.Prelude.{◌≡◌, cond, false, ◌++◌, eqb, ltb, length, drop, get_or};
ghost use Rattle.format.specs.Reading.{Reading};
ghost use Rattle.format.specs.ReadChunk as format;
ghost use Rattle.format.specs.Copy.{field_bytes, header_bytes, upvalues_of_main};
ghost use Rattle.format_spelling.specs.Spelling.{respelt};
ghost use Rattle.copy_put.specs.Inner.Put.{Put};

use copy_put::header::put_front;
use copy_put::raw::put_bytes;
use format::limits::ResourceLimits;
use format::spelling::Spelling;
use read_chunk::MAIN_AT;
use read_prototype::pass::pass_head;
use slice::cursor::{Cursor, remaining};

// Whether no place is spelt otherwise. Ruled out: a sort of places that is not looked at.
pub fn is_plain(spelling: Spelling) -> bool
    ensures { result ≡ eqb (respelt spelling) 0 }
{
    if spelling.padded > 0 {
        return false;
    }
    if spelling.filled > 0 {
        return false;
    }
    spelling.sources == 0
}

// Whether main's first number, the size of its source, begins with a zero group. Who pads one number pads them all, so this is a guess at the whole chunk, for the price of a byte.
pub fn begins_padded(s: &[u8]) -> bool
    ensures { result ≡ cond (ltb 32 (length s.now)) (eqb (get_or s.now 32 0) 0) false }
{
    if MAIN_AT < s.len() {
        return s[MAIN_AT] == 0;
    }
    false
}

// How many upvalues main has, of a chunk that is read; of any other nothing is said. Ruled out: another list's count, the upvalues of a nested function.
pub fn main_upvalues(s: &[u8], limits: ResourceLimits) -> usize
    ensures { (x : Reading) → format.read limits s.now ≡ format.shown x → result ≡ upvalues_of_main x.functions }
{
    let mut unused = [0usize; 4];
    let begins = pass_head(s, limits, 0, Cursor { at: MAIN_AT }, &mut unused);
    match begins {
        Err(_) => 0,
        Ok((counts, _)) => counts.upvalues,
    }
}

// The front anew, and the rest as it is. Ruled out: the chunk's own format byte and byte 31, a byte of them among the rest.
pub fn put_plain(s: &[u8], upvalues: usize, out: &mut [u8]) -> usize
    ensures { Put (header_bytes 0 ++ (field_bytes 1 upvalues ++ drop 32 s.now)) 0 out.old result out.new }
{
    let behind = put_front(upvalues, out);
    let rest = remaining(s, Cursor { at: MAIN_AT });
    put_bytes(s, MAIN_AT, rest, out, behind)
}

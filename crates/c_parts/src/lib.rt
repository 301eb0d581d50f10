// A function that is read at a place, before and behind the functions that nest in it, as numbers: what crate `lafzimdo` exports under the same names, with `lafzimdo_` before them. Each takes the nine limits as they cross the
// boundary to C, and answers an array of numbers, or the refusal.
// Each tests 21 and 22 first, as every call on a chunk does. No pass over the chunk: each costs what its part costs. The chunk is not judged, so of the totals only this function's own instructions and nested functions are
// held against theirs. Where no such part begins at the place, the answer is what the bytes there spell; behind the end of the chunk there are none.
#![tactic(auto)]

ghost use Rattle.std.specs.Prelude.{◌≡◌};
ghost use Rattle.c_boundary.specs.Status.{in_numbers};
ghost use Rattle.c_parts.specs.PartNumbers.{head_numbers, tail_numbers, head_at, tail_at};

use c_boundary::admit;
use c_entries::strings::{length_number, place_number, present_number};
use format::refusal::Refusal;
use read_prototype::parts::{Head, Tail, read_head, read_tail};
use slice::cursor::Cursor;

fn head_numbers(h: Head) -> [u64; 16]
    ensures { result ≡ head_numbers h }
{
    let front = h.front;
    let source = front.source;
    let lines = front.lines;
    let sizes = front.sizes;
    let lists = h.lists;
    let protos = h.protos;
    [
        present_number(source),
        place_number(source),
        length_number(source),
        lines.line_defined as u64,
        lines.last_line_defined as u64,
        sizes.numparams as u64,
        sizes.is_vararg as u64,
        sizes.maxstacksize as u64,
        lists.instructions.count as u64,
        lists.instructions.place as u64,
        lists.constants.count as u64,
        lists.constants.place as u64,
        lists.upvalues.count as u64,
        lists.upvalues.place as u64,
        protos.count as u64,
        protos.place as u64,
    ]
}

// The function that begins there, up to the functions that nest in it. Ruled out: a list's place before its count.
pub fn head_at(chunk: &[u8], limits: &[u64; 9], place: usize) -> Result<[u64; 16], Refusal>
    ensures { in_numbers result ≡ head_at limits.now place chunk.now }
{
    let limits = admit(chunk, limits)?;
    let mut unused = [0usize; 4];
    let (head, _) = read_head(chunk, limits, 0, Cursor { at: place }, &mut unused)?;
    Ok(head_numbers(head))
}

fn tail_numbers(t: Tail, to: usize) -> [u64; 9]
    ensures { result ≡ tail_numbers t to }
{
    [
        t.line_info.count as u64,
        t.line_info.place as u64,
        t.abs_line_info.count as u64,
        t.abs_line_info.place as u64,
        t.loc_vars.count as u64,
        t.loc_vars.place as u64,
        t.upvalue_names.count as u64,
        t.upvalue_names.place as u64,
        to as u64,
    ]
}

// A function behind the functions that nest in it. Ruled out: anchors taken for locals, the place before the names given as the function's end.
pub fn tail_at(chunk: &[u8], limits: &[u64; 9], place: usize) -> Result<[u64; 9], Refusal>
    ensures { in_numbers result ≡ tail_at limits.now place chunk.now }
{
    let limits = admit(chunk, limits)?;
    let mut unused = [0usize; 4];
    let (tail, next) = read_tail(
        chunk,
        limits.max_string_bytes,
        Cursor { at: place },
        &mut unused,
    )?;
    Ok(tail_numbers(tail, next.at))
}

// The end of a function, behind the functions that nest in it: read, and put into the copy.
ghost use Rattle.std.specs.Prelude.{◌≡◌, drop, IfOk};
ghost use Rattle.slice.specs.Inner.Results.{cursor_result};
ghost use Rattle.read_prototype.specs.Parts as parts;
ghost use Rattle.copy_entry.specs.Inner.Passed.{cursor_of};
ghost use Rattle.copy_parts.specs.Inner.Ends.{PutsTail, end_shown, walk_of};

use copy_entry::entry::Passed;
use copy_entry::listed::{copy_anchors_list, copy_locals_list, copy_names_list};
use copy_put::raw::put_run;
use format::limits::ResourceLimits;
use format::refusal::Refusal;
use read_list::line_info_list;
use read_walk::walk::Skimmed;
use slice::cursor::Cursor;

// What a walk over functions found, how many upvalues the first of them has, and the length of their copy.
#[derive(Clone, Copy)]
pub struct Copied {
    pub walk: Skimmed,
    pub upvalues: usize,
    pub len: usize,
}

// Reads a function behind the functions that nest in it, and puts its copy. Ruled out: the deltas behind the anchors, the names of the upvalues left out.
fn copy_tail(
    s: &[u8],
    max_string_bytes: usize,
    cursor: Cursor,
    out: &mut [u8],
    at: usize,
) -> Result<Passed, Refusal>
    ensures read_value { cursor_of result ≡ cursor_result (parts.tail max_string_bytes cursor.at (drop cursor.at s.now)) }
    ensures puts_tail { IfOk result (λ p. PutsTail (parts.tail max_string_bytes cursor.at (drop cursor.at s.now)) at out.old p.behind out.new) }
{
    let mut unused = [0usize; 4];
    let (deltas, further) = line_info_list(s, cursor, &mut unused)?;
    let first = put_run(s, deltas.place, deltas.count, 1, out, at);
    let anchors = copy_anchors_list(s, further, out, first)?;
    let locals = copy_locals_list(s, anchors.next, max_string_bytes, out, anchors.behind)?;
    let names = copy_names_list(s, locals.next, max_string_bytes, out, locals.behind)?;
    Ok(Passed {
        next: names.next,
        behind: names.behind,
    })
}

// Reads what stands behind the nested functions of a function, and puts its copy behind theirs. Ruled out: an end put before theirs, a walk that goes on behind a refusal.
pub fn copy_end(
    s: &[u8],
    limits: ResourceLimits,
    upvalues: usize,
    nested: Skimmed,
    out: &mut [u8],
    at: usize,
) -> Result<Copied, Refusal>
    ensures upvalues_value { IfOk result (λ k. k.upvalues ≡ upvalues) }
    ensures walk_value { walk_of result ≡ end_shown nested (parts.tail limits.max_string_bytes nested.next.at (drop nested.next.at s.now)) }
    ensures puts_tail { IfOk result (λ k. PutsTail (parts.tail limits.max_string_bytes nested.next.at (drop nested.next.at s.now)) at out.old k.len out.new) }
{
    let ends = copy_tail(s, limits.max_string_bytes, nested.next, out, at)?;
    let walk = Skimmed {
        next: ends.next,
        number: nested.number,
        instructions: nested.instructions,
    };
    Ok(Copied {
        walk,
        upvalues,
        len: ends.behind,
    })
}

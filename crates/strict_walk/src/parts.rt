// A function before and behind the functions that nest in it, passed over.
ghost use Rattle.std.specs.Prelude.{◌≡◌, drop};
ghost use Rattle.slice.specs.Inner.Results.{cursor_result};
ghost use Rattle.strict_walk.specs.Inner.StrictParts.{strict_front, strict_lists, strict_head, strict_tail};
ghost use Rattle.strict_walk.specs.Inner.Results.{head_passed};

use crate::list::{
    int_up_to, pass_anchors_list, pass_code, pass_constants_list, pass_line_info_list,
    pass_locals_list, pass_names_list, pass_upvalues_list,
};
use format::limits::ResourceLimits;
use format::refusal::Refusal;
use read_entry::runs::skip_upvalues;
use slice::cursor::Cursor;
use strict_entry::int::pass_int;
use strict_entry::pass::pass_string;

// A function from its source to its three bytes, which are passed over as an upvalue's three are. Ruled out: one line left out, a source that is absent refused.
fn pass_front(s: &[u8], cursor: Cursor, max_string_bytes: usize) -> Result<Cursor, Refusal>
    ensures { result ≡ cursor_result (strict_front max_string_bytes cursor.at (drop cursor.at s.now)) }
{
    let behind = pass_string(s, cursor, max_string_bytes)?;
    let further = pass_int(s, behind)?;
    let next = pass_int(s, further)?;
    skip_upvalues(s, next, 1)
}

// The constants and the upvalues of a function. Ruled out: the limit of constants held to upvalues.
fn pass_lists(s: &[u8], limits: ResourceLimits, cursor: Cursor) -> Result<Cursor, Refusal>
    ensures { result ≡ cursor_result (strict_lists limits cursor.at (drop cursor.at s.now)) }
{
    let next = pass_constants_list(
        s,
        cursor,
        limits.max_constants_per_proto,
        limits.max_string_bytes,
    )?;
    pass_upvalues_list(s, next, limits.max_upvalues_per_proto)
}

// A function up to those that nest in it. Ruled out: the count of constants given as that of instructions, the place of the constants as that of the nested functions' count.
pub fn pass_head(
    s: &[u8],
    limits: ResourceLimits,
    before: usize,
    cursor: Cursor,
) -> Result<(usize, usize, Cursor), Refusal>
    ensures { result ≡ head_passed (strict_head limits before cursor.at (drop cursor.at s.now)) }
{
    let behind = pass_front(s, cursor, limits.max_string_bytes)?;
    let per_proto = limits.max_instructions_per_proto;
    let (instructions, further) = pass_code(
        s,
        behind,
        per_proto,
        before,
        limits.max_total_instructions,
    )?;
    let last = pass_lists(s, limits, further)?;
    let refusal = Refusal::Prototypes(last.at);
    let (protos, next) = int_up_to(s, last, limits.max_total_prototypes, refusal)?;
    Ok((instructions as usize, protos as usize, next))
}

// A function behind those that nest in it. Ruled out: a list left out.
pub fn pass_tail(s: &[u8], max_string_bytes: usize, cursor: Cursor) -> Result<Cursor, Refusal>
    ensures { result ≡ cursor_result (strict_tail max_string_bytes cursor.at (drop cursor.at s.now)) }
{
    let behind = pass_line_info_list(s, cursor)?;
    let further = pass_anchors_list(s, behind)?;
    let next = pass_locals_list(s, further, max_string_bytes)?;
    pass_names_list(s, next, max_string_bytes)
}

// A function before and behind the functions that nest in it.
ghost use Rattle.std.specs.Prelude.{◌≡◌, drop};
ghost use Rattle.format_spelling.specs.Inner.Tally.{Room, Adds};
ghost use Rattle.read_prototype.specs.Parts as parts;
ghost use Rattle.read_prototype.specs.PartsShown.{head_lists_result, head_result, tail_result};
ghost use Rattle.read_prototype.specs.PartsSpelt as spelt;

use crate::front::{Front, read_front};
use format::limits::ResourceLimits;
use format::refusal::Refusal;
use format_spelling::tally::Tally;
use read_list::{
    ListAt, anchors_list, constants_list, instructions_list, line_info_list, locals_list,
    names_list, protos_count, upvalues_list,
};
use slice::cursor::Cursor;

#[derive(Clone, Copy)]
pub struct HeadLists {
    pub instructions: ListAt,
    pub constants: ListAt,
    pub upvalues: ListAt,
}

// The lists before the nested functions, behind so many instructions of the functions before.
fn read_head_lists(
    s: &[u8],
    limits: ResourceLimits,
    before: usize,
    cursor: Cursor,
    tally: &mut Tally,
) -> Result<(HeadLists, Cursor), Refusal>
    requires { Room tally.old cursor.at }
    ensures value { result ≡ head_lists_result (parts.head_lists limits before cursor.at (drop cursor.at s.now)) }
    ensures adds { Adds (parts.head_lists limits before cursor.at (drop cursor.at s.now)) (spelt.head_lists limits before cursor.at (drop cursor.at s.now)) tally.old tally.new }
{
    let (instructions, behind) = instructions_list(
        s,
        cursor,
        limits.max_instructions_per_proto,
        before,
        limits.max_total_instructions,
        tally,
    )?;
    let (constants, further) = constants_list(
        s,
        behind,
        limits.max_constants_per_proto,
        limits.max_string_bytes,
        tally,
    )?;
    let (upvalues, next) = upvalues_list(s, further, limits.max_upvalues_per_proto, tally)?;
    Ok((
        HeadLists {
            instructions,
            constants,
            upvalues,
        },
        next,
    ))
}

#[derive(Clone, Copy)]
pub struct Head {
    pub front: Front,
    pub lists: HeadLists,
    pub protos: ListAt,
}

// A function up to the functions that nest in it. Ruled out: a limit of another list, nested functions counted from the wrong place.
pub fn read_head(
    s: &[u8],
    limits: ResourceLimits,
    before: usize,
    cursor: Cursor,
    tally: &mut Tally,
) -> Result<(Head, Cursor), Refusal>
    requires { Room tally.old cursor.at }
    ensures value { result ≡ head_result (parts.head limits before cursor.at (drop cursor.at s.now)) }
    ensures adds { Adds (parts.head limits before cursor.at (drop cursor.at s.now)) (spelt.head limits before cursor.at (drop cursor.at s.now)) tally.old tally.new }
{
    let (front, behind) = read_front(s, cursor, limits.max_string_bytes, tally)?;
    let (lists, further) = read_head_lists(s, limits, before, behind, tally)?;
    let (protos, next) = protos_count(s, further, limits.max_total_prototypes, tally)?;
    Ok((
        Head {
            front,
            lists,
            protos,
        },
        next,
    ))
}

#[derive(Clone, Copy)]
pub struct Tail {
    pub line_info: ListAt,
    pub abs_line_info: ListAt,
    pub loc_vars: ListAt,
    pub upvalue_names: ListAt,
}

// A function behind the functions that nest in it. Ruled out: anchors taken for locals, the cursor before the names.
pub fn read_tail(
    s: &[u8],
    max_string_bytes: usize,
    cursor: Cursor,
    tally: &mut Tally,
) -> Result<(Tail, Cursor), Refusal>
    requires { Room tally.old cursor.at }
    ensures value { result ≡ tail_result (parts.tail max_string_bytes cursor.at (drop cursor.at s.now)) }
    ensures adds { Adds (parts.tail max_string_bytes cursor.at (drop cursor.at s.now)) (spelt.tail max_string_bytes cursor.at (drop cursor.at s.now)) tally.old tally.new }
{
    let (line_info, behind) = line_info_list(s, cursor, tally)?;
    let (abs_line_info, further) = anchors_list(s, behind, tally)?;
    let (loc_vars, last) = locals_list(s, further, max_string_bytes, tally)?;
    let (upvalue_names, next) = names_list(s, last, max_string_bytes, tally)?;
    Ok((
        Tail {
            line_info,
            abs_line_info,
            loc_vars,
            upvalue_names,
        },
        next,
    ))
}

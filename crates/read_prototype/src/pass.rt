// A function before and behind the functions that nest in it, of which only the counts and two places are kept: a walk that calls itself keeps them at each level, so they are few.
ghost use Rattle.std.specs.Prelude.{◌≡◌, drop};
ghost use Rattle.format_spelling.specs.Inner.Tally.{Room, Adds};
ghost use Rattle.read_prototype.specs.Parts as parts;
ghost use Rattle.read_prototype.specs.PartsSpelt as spelt;
ghost use Rattle.read_prototype.specs.Inner.Counts.{is_spelt, head_counts_result, tail_counts_result};

use crate::parts::{read_head, read_tail};
use format::limits::ResourceLimits;
use format::refusal::Refusal;
use format_spelling::tally::Tally;
use read_field::string::StringAt;
use slice::cursor::Cursor;

// How long the lists before the nested functions are, whether the source is spelt, and where the words and the constants begin, just after their counts.
#[derive(Clone, Copy)]
pub struct HeadCounts {
    pub instructions: usize,
    pub constants: usize,
    pub upvalues: usize,
    pub protos: usize,
    pub named: bool,
    pub instructions_at: usize,
    pub constants_at: usize,
}

// Passes over a function up to the functions that nest in it. Ruled out: the count or the place of another list, an absent source that counts as spelt.
pub fn pass_head(
    s: &[u8],
    limits: ResourceLimits,
    before: usize,
    cursor: Cursor,
    tally: &mut Tally,
) -> Result<(HeadCounts, Cursor), Refusal>
    requires { Room tally.old cursor.at }
    ensures value { result ≡ head_counts_result (parts.head limits before cursor.at (drop cursor.at s.now)) }
    ensures adds { Adds (parts.head limits before cursor.at (drop cursor.at s.now)) (spelt.head limits before cursor.at (drop cursor.at s.now)) tally.old tally.new }
{
    let (head, next) = read_head(s, limits, before, cursor, tally)?;
    let counts = HeadCounts {
        instructions: head.lists.instructions.count,
        constants: head.lists.constants.count,
        upvalues: head.lists.upvalues.count,
        protos: head.protos.count,
        named: head.front.source.is_some(),
        instructions_at: head.lists.instructions.place,
        constants_at: head.lists.constants.place,
    };
    Ok((counts, next))
}

// How long the lists behind the nested functions are.
#[derive(Clone, Copy)]
pub struct TailCounts {
    pub line_info: usize,
    pub abs_line_info: usize,
    pub loc_vars: usize,
    pub upvalue_names: usize,
}

// Passes over a function behind the functions that nest in it. Ruled out: the count of another list.
pub fn pass_tail(
    s: &[u8],
    max_string_bytes: usize,
    cursor: Cursor,
    tally: &mut Tally,
) -> Result<(TailCounts, Cursor), Refusal>
    requires { Room tally.old cursor.at }
    ensures value { result ≡ tail_counts_result (parts.tail max_string_bytes cursor.at (drop cursor.at s.now)) }
    ensures adds { Adds (parts.tail max_string_bytes cursor.at (drop cursor.at s.now)) (spelt.tail max_string_bytes cursor.at (drop cursor.at s.now)) tally.old tally.new }
{
    let (tail, next) = read_tail(s, max_string_bytes, cursor, tally)?;
    let counts = TailCounts {
        line_info: tail.line_info.count,
        abs_line_info: tail.abs_line_info.count,
        loc_vars: tail.loc_vars.count,
        upvalue_names: tail.upvalue_names.count,
    };
    Ok((counts, next))
}

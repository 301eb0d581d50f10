// The functions of a chunk in the order in which their bytes begin, without recursion: a level for each function that is open, and in
// `left` how many functions of that level are still to come.
#![tactic(auto)]

ghost use Rattle.std.specs.Prelude.{◌≡◌, ◌<◌, ◌≤◌, get_or};
ghost use Rattle.format.specs.Limits.{MOST};
ghost use Rattle.read_next.specs.Inner.Rows.{LEVELS, row_shown, rows_from, any_row, met, entered, up_to, Within, Ready};

use format::limits::{DEEPEST, ResourceLimits};
use read_prototype::front::{Lines, Sizes};
use read_prototype::parts::{Head, read_head, read_tail};
use slice::cursor::Cursor;

// Levels of functions, main's included.
const LEVELS: usize = DEEPEST + 1;
// One more: the functions in one of the last level have a count too.
pub const COUNTS: usize = LEVELS + 1;
// How many functions are still to come, level by level.
pub type Levels = [usize; COUNTS];

// A function's level, main's being 0, and what stands before its nested functions, without its source: of its lists how long they are, and where the first instruction word stands.
// (Numbers by themselves: a count beside its place is copied as a pair, and reading a pair just behind the writing of its halves holds the processor up.)
#[derive(Clone, Copy)]
pub struct Row {
    pub depth: usize,
    pub lines: Lines,
    pub sizes: Sizes,
    pub instructions: usize,
    pub constants: usize,
    pub upvalues: usize,
    pub protos: usize,
    pub instructions_at: usize,
}

fn row_of(depth: usize, head: Head) -> Row
    ensures { result ≡ row_shown depth head }
{
    let lines = head.front.lines;
    let sizes = head.front.sizes;
    Row {
        depth: depth,
        lines: lines,
        sizes: Sizes {
            numparams: sizes.numparams,
            is_vararg: sizes.is_vararg,
            maxstacksize: sizes.maxstacksize,
        },
        instructions: head.lists.instructions.count,
        constants: head.lists.constants.count,
        upvalues: head.lists.upvalues.count,
        protos: head.protos.count,
        instructions_at: head.lists.instructions.place,
    }
}

fn left_at(left: &Levels, d: usize) -> usize
    ensures { result ≡ get_or left.now d 0 }
{
    if d < COUNTS {
        return left[d];
    }
    0
}

// From a place in a function whose nested functions are at the level `depth`: the tails of the functions that have no more in them, up to
// one that has.
fn go_up(
    s: &[u8],
    limits: ResourceLimits,
    left: &Levels,
    depth: usize,
    cursor: Cursor,
) -> Option<(usize, Cursor)>
    ensures { (rows_from limits s.now left.now depth cursor.at ≡ up_to limits s.now left.now result) × Ready left.now result }
{
    let mut d = depth;
    let mut i = cursor;
    loop {
        if 0 < left_at(left, d) {
            if LEVELS <= d {
                return None;
            }
            return Some((d, i));
        }
        if d == 0 {
            return None;
        }
        let mut unused = [0usize; 4];
        let Ok((_, next)) = read_tail(s, limits.max_string_bytes, i, &mut unused) else {
            return None;
        };
        i = next;
        d -= 1;
    }
}

// The next function.
pub fn next_function(
    s: &[u8],
    limits: ResourceLimits,
    left: &Levels,
    depth: usize,
    cursor: Cursor,
) -> Option<(Row, usize, Cursor)>
    requires { limits.max_total_instructions ≤ MOST }
    ensures { (rows_from limits s.now left.now depth cursor.at ≡ met limits s.now left.now result) × Within left.now result }
{
    let (d, place) = go_up(s, limits, left, depth, cursor)?;
    let mut unused = [0usize; 4];
    let Ok((head, next)) = read_head(s, limits, 0, place, &mut unused) else {
        return None;
    };
    let row = row_of(d, head);
    Some((row, d, next))
}

// Whether there is a next function, for callers that do not look at it. (Only one asks for the function itself, over and over: `next_function` then stands in its loop, and costs no call.)
pub fn any_function(
    s: &[u8],
    limits: ResourceLimits,
    left: &Levels,
    depth: usize,
    cursor: Cursor,
) -> bool
    ensures { result ≡ any_row (rows_from limits s.now left.now depth cursor.at) }
{
    let Some((_, place)) = go_up(s, limits, left, depth, cursor) else {
        return false;
    };
    let mut unused = [0usize; 4];
    read_head(s, limits, 0, place, &mut unused).is_ok()
}

// Goes on into a function of level d in which n nest: one fewer is still to come at its level, and n at the one below.
pub fn go_down(left: &mut Levels, d: usize, n: usize)
    requires { (d < LEVELS) × (0 < get_or left.old d 0) }
    ensures { left.new ≡ entered left.old d n }
{
    left[d] = left[d] - 1;
    left[d + 1] = n;
}

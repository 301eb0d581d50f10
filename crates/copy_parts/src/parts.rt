// A function before the functions that nest in it: read, and put into the copy in the same pass.
ghost use Rattle.std.specs.Prelude.{◌≡◌, drop, IfOk};
ghost use Rattle.format.specs.Form.{Below};
ghost use Rattle.read_prototype.specs.Parts as parts;
ghost use Rattle.read_prototype.specs.PartsShown.{head_lists_result, head_result};
ghost use Rattle.copy_parts.specs.Inner.Heads.{lists_counted, lists_kept, head_counted, head_kept, PutsLists, PutsHead};

use crate::front::copy_front;
use copy_entry::listed::copy_constants_list;
use copy_put::number::put_varint;
use copy_put::raw::put_run;
use format::limits::ResourceLimits;
use format::refusal::Refusal;
use read_list::{instructions_list, protos_count, upvalues_list};
use slice::cursor::Cursor;

// How many words and upvalues a function has, and behind the lists the cursor in the chunk and the place in the copy.
#[derive(Clone, Copy)]
struct ListsCopied {
    instructions: usize,
    upvalues: usize,
    next: Cursor,
    behind: usize,
}

// The lists before the nested functions: words and upvalues as they stand, the constants one by one.
fn copy_lists(
    s: &[u8],
    limits: ResourceLimits,
    before: usize,
    cursor: Cursor,
    out: &mut [u8],
    at: usize,
) -> Result<ListsCopied, Refusal>
    ensures lists_value { lists_kept result ≡ lists_counted (head_lists_result (parts.head_lists limits before cursor.at (drop cursor.at s.now))) }
    ensures puts_lists { IfOk result (λ k. PutsLists limits s.now (head_lists_result (parts.head_lists limits before cursor.at (drop cursor.at s.now))) at out.old k.behind out.new) }
{
    let mut unused = [0usize; 4];
    let (code, further) = instructions_list(
        s,
        cursor,
        limits.max_instructions_per_proto,
        before,
        limits.max_total_instructions,
        &mut unused,
    )?;
    let first = put_run(s, code.place, code.count, 4, out, at);
    let constants = copy_constants_list(
        s,
        further,
        limits.max_constants_per_proto,
        limits.max_string_bytes,
        out,
        first,
    )?;
    let mut unused = [0usize; 4];
    let (upvalues, next) = upvalues_list(
        s,
        constants.next,
        limits.max_upvalues_per_proto,
        &mut unused,
    )?;
    let behind = put_run(s, upvalues.place, upvalues.count, 3, out, constants.behind);
    Ok(ListsCopied {
        instructions: code.count,
        upvalues: upvalues.count,
        next,
        behind,
    })
}

// What a walk needs of a function before the functions that nest in it: how many words and upvalues it has, and how many of those.
#[derive(Clone, Copy)]
pub struct Counts {
    pub instructions: usize,
    pub upvalues: usize,
    pub protos: usize,
}

// The same, the cursor behind it, and how long its copy is.
#[derive(Clone, Copy)]
pub struct HeadCopied {
    pub counts: Counts,
    pub next: Cursor,
    pub len: usize,
}

// A function up to the functions that nest in it, at the start of the lent memory. Ruled out: a nested function's source kept, the number of nested functions left out.
pub fn copy_head(
    s: &[u8],
    limits: ResourceLimits,
    named: bool,
    before: usize,
    cursor: Cursor,
    out: &mut [u8],
) -> Result<HeadCopied, Refusal>
    ensures begins_value { head_kept result ≡ head_counted (head_result (parts.head limits before cursor.at (drop cursor.at s.now))) }
    ensures puts_head { Below 256 s.now → IfOk result (λ h. PutsHead named (parts.head limits before cursor.at (drop cursor.at s.now)) out.old h.len out.new) }
{
    let front = copy_front(s, named, limits.max_string_bytes, cursor, out)?;
    let lists = copy_lists(s, limits, before, front.next, out, front.behind)?;
    let mut unused = [0usize; 4];
    let (protos, next) = protos_count(s, lists.next, limits.max_total_prototypes, &mut unused)?;
    let len = put_varint(out, lists.behind, protos.count as u64);
    let counts = Counts {
        instructions: lists.instructions,
        upvalues: lists.upvalues,
        protos: protos.count,
    };
    Ok(HeadCopied { counts, next, len })
}

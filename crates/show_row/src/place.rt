// Where a function's list stands, if it has an entry of the number asked for.
ghost use Rattle.std.specs.Prelude.{◌≡◌};
ghost use Rattle.format.specs.ReadChunk.{read};
ghost use Rattle.show_row.specs.Asked.{function_of};
ghost use Rattle.show_row.specs.Inner.Places.{list_of, shown_place};

use crate::row::function_row;
use format::limits::ResourceLimits;
use format::refusal::Refusal;
use read_list::ListAt;
use read_prototype::row::FunctionRow;
use slice::cursor::Cursor;

// The lists of a function that hold entries of their own.
#[derive(Clone, Copy)]
pub enum EntryKind {
    Instruction,
    Constant,
    Upvalue,
    Delta,
    Anchor,
    Local,
    UpvalueName,
}

fn list_of(kind: EntryKind, row: FunctionRow) -> ListAt
    ensures { result ≡ list_of kind row }
{
    let lists = row.lists;
    match kind {
        EntryKind::Instruction => lists.instructions,
        EntryKind::Constant => lists.constants,
        EntryKind::Upvalue => lists.upvalues,
        EntryKind::Delta => lists.line_info,
        EntryKind::Anchor => lists.abs_line_info,
        EntryKind::Local => lists.loc_vars,
        EntryKind::UpvalueName => lists.upvalue_names,
    }
}

// Where the list that holds an entry of a function begins, or why there is no such entry: the refusal of the chunk, 23, or 24.
// Ruled out: an entry of the count's number, the place of another list.
pub fn entry_list(
    s: &[u8],
    limits: ResourceLimits,
    function: usize,
    kind: EntryKind,
    entry: usize,
) -> Result<Cursor, Refusal>
    ensures { result ≡ shown_place kind entry (function_of function (read limits s.now)) }
{
    let row = function_row(s, limits, function)?;
    let list = list_of(kind, row);
    if entry < list.count {
        return Ok(Cursor { at: list.place });
    }
    Err(Refusal::NoEntry)
}

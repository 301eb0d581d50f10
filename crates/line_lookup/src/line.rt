// The line of an instruction.
ghost use Rattle.std.specs.Prelude.{◌≡◌, ◌≤◌, length};
ghost use Rattle.format.specs.Limits.{MOST};
ghost use Rattle.format.specs.ReadChunk.{read};
ghost use Rattle.show_row.specs.Asked.{function_of};
ghost use Rattle.line_lookup.specs.Lines.{shown_line};
ghost use Rattle.line_lookup.specs.Inner.Scan.{numbered_of, shown_row_line};

use crate::deltas::{line_from, up_to};
use format::limits::ResourceLimits;
use format::refusal::Refusal;
use line_anchors::{Sought, scan_anchors};
use read_prototype::row::FunctionRow;
use show_row::row::function_row;
use slice::bytes::bytes_at;
use slice::cursor::Cursor;

// An anchor counts by its number only where there are as many as instructions.
fn numbered(anchors: usize, instructions: usize, sought: Sought) -> Sought
    ensures { result ≡ numbered_of anchors instructions sought }
{
    if anchors == instructions {
        return sought;
    }
    Sought::Ahead(0)
}

// Of a function's row. Rule 1 gives what rule 4 gives, so it has no test of its own.
fn line_in_row(s: &[u8], row: FunctionRow, pc: usize) -> Result<usize, Refusal>
    requires { length s.now ≤ MOST }
    ensures { result ≡ shown_row_line row pc s.now }
{
    let lists = row.lists;
    let lines = row.lines;
    let instructions = lists.instructions;
    let line_info = lists.line_info;
    let anchors = lists.abs_line_info;
    let first = Cursor { at: anchors.place };
    let deltas = up_to(bytes_at(s, line_info.place, line_info.count), pc);
    let scan = scan_anchors(s, first, anchors.count, deltas, pc, lines.line_defined)?;
    if scan.large {
        return Err(Refusal::LineTooLarge);
    }
    let sought = scan.sought;
    let found = numbered(anchors.count, instructions.count, sought);
    match found {
        Sought::At(line) => Ok(line),
        Sought::Ahead(_) => Ok(line_from(deltas, scan)),
    }
}

// The line of an instruction of a function, as the Rust's `Prototype::get_line_for_pc` finds it. Ruled out: the delta at the anchor skipped, lines always 0.
pub fn get_line_for_pc(
    s: &[u8],
    limits: ResourceLimits,
    function: usize,
    pc: usize,
) -> Result<usize, Refusal>
    ensures { result ≡ shown_line pc (function_of function (read limits s.now)) }
{
    let row = function_row(s, limits, function)?;
    line_in_row(s, row, pc)
}

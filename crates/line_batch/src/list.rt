// The lines of a list of pcs.
ghost use Rattle.std.specs.Prelude.{◌≡◌, ◌≤◌, length};
ghost use Rattle.std.proofs.Math.Option.{none};
ghost use Rattle.format.specs.Limits.{MOST};
ghost use Rattle.format.specs.ReadChunk.{read};
ghost use Rattle.slice.specs.Inner.Splice.{splice};
ghost use Rattle.show_row.specs.Asked.{function_of};
ghost use Rattle.line_batch.specs.Batch.{answered, over_if, shown_lines, lines_written};
ghost use Rattle.line_batch.specs.Inner.Rows.{anchors_in, all_in, row_refusal, row_numbered, row_lines, row_deltas_read};

use crate::anchors::Anchors;
use crate::judge::judge;
use crate::numbered::write_numbered;
use crate::walk::{Walk, write_lines};
use format::limits::ResourceLimits;
use format::refusal::Refusal;
use read_prototype::row::FunctionRow;
use show_row::row::function_row;
use slice::bytes::bytes_at;
use slice::cursor::Cursor;

fn all_in(row: FunctionRow) -> Anchors
    ensures { result ≡ all_in row }
{
    let lists = row.lists;
    let anchors = lists.abs_line_info;
    Anchors {
        next: Cursor { at: anchors.place },
        left: anchors.count,
    }
}

// The lines of the pcs at the front that rule 2 answers; how many these are.
fn write_front(s: &[u8], row: FunctionRow, pcs: &[u64], lines: &mut [u64]) -> usize
    requires { length pcs.now ≤ length lines.old }
    ensures lines_after { lines.new ≡ splice 0 (row_numbered s.now row pcs.now) lines.old }
    ensures value { result ≡ length (row_numbered s.now row pcs.now) }
{
    let all = all_in(row);
    let lists = row.lists;
    let instructions = lists.instructions;
    if all.left == instructions.count {
        return write_numbered(s, all, pcs, lines);
    }
    0
}

// All lines; how many deltas were read.
fn write_row(s: &[u8], row: FunctionRow, pcs: &[u64], lines: &mut [u64]) -> usize
    requires { (length s.now ≤ MOST) × (length (anchors_in s.now row) ≡ (all_in row).left) × (row_refusal s.now row (length lines.old) pcs.now ≡ none) }
    ensures lines_after { lines.new ≡ splice 0 (row_lines s.now row pcs.now) lines.old }
    ensures value { result ≡ row_deltas_read s.now row pcs.now }
{
    let start = write_front(s, row, pcs, lines);
    let all = all_in(row);
    let lists = row.lists;
    let firsts = row.lines;
    let line_info = lists.line_info;
    let first = Walk {
        rest: all,
        at: 0,
        from: firsts.line_defined,
        sum: 0,
        read: 0,
    };
    let deltas = bytes_at(s, line_info.place, line_info.count);
    write_lines(s, deltas, first, pcs, start, lines)
}

// Of a function's row.
fn lines_in_row(
    s: &[u8],
    row: FunctionRow,
    pcs: &[u64],
    lines: &mut [u64],
) -> Result<usize, Refusal>
    requires { (length s.now ≤ MOST) × (length (anchors_in s.now row) ≡ (all_in row).left) }
    ensures value { result ≡ answered (row_refusal s.now row (length lines.old) pcs.now) (row_deltas_read s.now row pcs.now) }
    ensures lines_after { lines.new ≡ over_if (row_refusal s.now row (length lines.old) pcs.now) (row_lines s.now row pcs.now) lines.old }
{
    let all = all_in(row);
    let firsts = row.lines;
    judge(s, all, firsts.line_defined, pcs, lines.len())?;
    Ok(write_row(s, row, pcs, lines))
}

// The lines of the instructions `pcs` of a function, which never fall, at the front of `lines`: each as `get_line_for_pc` finds it; how many of the function's deltas these lookups walk over, each of which was read once.
// Ruled out: a delta counted for each lookup that walks over it, deltas counted that none walks over, lines touched where the answer is a refusal.
pub fn get_lines_for_pcs(
    s: &[u8],
    limits: ResourceLimits,
    function: usize,
    pcs: &[u64],
    lines: &mut [u64],
) -> Result<usize, Refusal>
    ensures value { result ≡ shown_lines (length lines.old) pcs.now (function_of function (read limits s.now)) }
    ensures lines_after { lines.new ≡ lines_written lines.old pcs.now (function_of function (read limits s.now)) }
{
    let row = function_row(s, limits, function)?;
    lines_in_row(s, row, pcs, lines)
}

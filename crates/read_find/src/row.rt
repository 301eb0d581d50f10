// The row of one function, read where a walk has found it.
ghost use Rattle.std.specs.Prelude.{◌≡◌};
ghost use Rattle.read_find.specs.Inner.Spot.{inherit_shown, row_shown, row_at};

use crate::spot::{Above, Spot};
use format::limits::ResourceLimits;
use read_field::string::StringAt;
use read_prototype::parts::{Head, Tail, read_head, read_tail};
use read_prototype::row::{FunctionRow, Lists};
use read_walk::source::source_at;
use slice::cursor::Cursor;

// An absent source is the parent's.
fn inherited(spelt: Option<StringAt>, parent: Option<StringAt>) -> Option<StringAt>
    ensures { result ≡ inherit_shown spelt parent }
{
    match spelt {
        Some(_) => spelt,
        None => parent,
    }
}

// The row of a function, of its parts.
fn row_of(
    above: Above,
    parent_source: Option<StringAt>,
    start: usize,
    head: Head,
    tail: Tail,
    end: usize,
) -> FunctionRow
    ensures { result ≡ row_shown above.depth above.parent parent_source start head tail end }
{
    let front = head.front;
    let spelt = front.source;
    let source = inherited(spelt, parent_source);
    let lines = head.front.lines;
    let sizes = head.front.sizes;
    let instructions = head.lists.instructions;
    let constants = head.lists.constants;
    let upvalues = head.lists.upvalues;
    let protos = head.protos;
    let line_info = tail.line_info;
    let abs_line_info = tail.abs_line_info;
    let loc_vars = tail.loc_vars;
    let upvalue_names = tail.upvalue_names;
    FunctionRow {
        start: start,
        end: end,
        depth: above.depth,
        parent: above.parent,
        source_name: source,
        lines: lines,
        sizes: sizes,
        lists: Lists {
            instructions: instructions,
            constants: constants,
            upvalues: upvalues,
            protos: protos,
            line_info: line_info,
            abs_line_info: abs_line_info,
            loc_vars: loc_vars,
            upvalue_names: upvalue_names,
        },
    }
}

// The row of the function at a spot, read there: no row, where no function stands there. Ruled out: the source of the function's own start for the one it inherits.
pub fn row_at(s: &[u8], limits: ResourceLimits, spot: &Spot) -> Option<FunctionRow>
    ensures { result ≡ row_at limits s.now spot.now }
{
    let start = spot[0];
    let mut unused = [0usize; 4];
    let begins = read_head(s, limits, spot[2], Cursor { at: start }, &mut unused);
    let Ok((head, _)) = begins else {
        return None;
    };
    let mut unused = [0usize; 4];
    let ends = read_tail(
        s,
        limits.max_string_bytes,
        Cursor { at: spot[1] },
        &mut unused,
    );
    let Ok((tail, next)) = ends else {
        return None;
    };
    let above = Above {
        depth: spot[3],
        parent: spot[4],
        source: spot[5],
    };
    let source = source_at(s, limits.max_string_bytes, above.source);
    Some(row_of(above, source, start, head, tail, next.at))
}

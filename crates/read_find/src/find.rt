// One function of a chunk by its number: all functions are judged, and its row is read behind the walk.
ghost use Rattle.std.specs.Prelude.{◌≡◌, ◌≤◌, drop};
ghost use Rattle.format.specs.Limits.{DEEPEST, Walkable};
ghost use Rattle.format.specs.GrammarChunk.{outermost};
ghost use Rattle.format.specs.ReadChunk.{function};
ghost use Rattle.read_find.specs.Inner.Find.{find_result};

use crate::row::row_at;
use crate::spot::{Above, find_function};
use format::limits::ResourceLimits;
use format::refusal::Refusal;
use read_prototype::row::FunctionRow;
use read_walk::walk::Skimmed;
use slice::cursor::Cursor;

// Judges main and all functions that nest in it, and shows the row of one of them. Ruled out: main's row for every number, a row where there is no function of that number.
pub fn find_row(
    s: &[u8],
    limits: ResourceLimits,
    wanted: usize,
    main_at: Cursor,
) -> Result<(Skimmed, Option<FunctionRow>), Refusal>
    requires { Walkable limits × (limits.max_nesting_depth ≤ DEEPEST) }
    ensures { result ≡ find_result wanted (function limits limits.max_nesting_depth outermost main_at.at (drop main_at.at s.now)) }
{
    // No function stands at the end of the file: main inherits no source, and nothing is found yet.
    let end = s.len();
    let above = Above {
        depth: 0,
        parent: 0,
        source: end,
    };
    let mut spot = [end; 6];
    let from = Skimmed {
        next: main_at,
        number: 0,
        instructions: 0,
    };
    let deepest = limits.max_nesting_depth;
    let walked = find_function(s, limits, deepest, above, wanted, from, &mut spot)?;
    let row = row_at(s, limits, &spot);
    Ok((walked, row))
}

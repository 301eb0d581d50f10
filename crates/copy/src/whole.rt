// A whole chunk, judged and copied.
ghost use Rattle.std.specs.Prelude.{◌≤◌, length, drop};
ghost use Rattle.format.specs.Limits.{DEEPEST, MOST, Walkable};
ghost use Rattle.format.specs.Form.{Below};
ghost use Rattle.format.specs.GrammarChunk.{outermost};
ghost use Rattle.format.specs.ReadChunk as format;
ghost use Rattle.copy.specs.Inner.Answers.{chunk_bytes, Answers, Copies};

use copy_put::header::put_front;
use copy_put::raw::{plus, put_bytes};
use copy_walk::walk::{copy_function, within};
use format::limits::ResourceLimits;
use format::refusal::Refusal;
use read_chunk::open_chunk;
use read_walk::walk::Skimmed;
use slice::cursor::{Cursor, remaining};

// Main, which begins at the cursor, with all that nest in it, then the header, of which one byte depends on main, then the trailing bytes.
fn copy_functions(
    s: &[u8],
    limits: ResourceLimits,
    cursor: Cursor,
    out: &mut [u8],
) -> Result<usize, Refusal>
    requires { (limits.max_nesting_depth ≤ DEEPEST) × Walkable limits }
    ensures { Below 256 s.now → length s.now ≤ MOST → Answers chunk_bytes (format.function limits limits.max_nesting_depth outermost cursor.at (drop cursor.at s.now)) out.old result out.new }
{
    let left = limits.max_nesting_depth;
    let from = Skimmed {
        next: cursor,
        number: 0,
        instructions: 0,
    };
    let start = within(32, out.len());
    let main = copy_function(s, limits, true, left, from, &mut out[start..])?;
    put_front(main.upvalues, out);
    let behind = plus(32, main.len);
    let next = main.walk.next;
    Ok(put_bytes(s, next.at, remaining(s, next), out, behind))
}

// A chunk under limits, judged; and its copy at the start of the lent memory, if it has room there. Ruled out: a length without the trailing bytes, a chunk above the input limit copied.
pub fn copy_chunk(s: &[u8], limits: ResourceLimits, out: &mut [u8]) -> Result<usize, Refusal>
    ensures { Copies (format.read limits s.now) out.old result out.new }
{
    let opening = open_chunk(s, limits)?;
    copy_functions(s, limits, opening.next, out)
}

// The walk over a chunk's functions that writes the row of each.
#![tactic(auto)]

ghost use Rattle.std.specs.Prelude.{◌≡◌, ◌+◌, ◌≤◌, drop};
ghost use Rattle.format.specs.Limits.{DEEPEST, MOST, Walkable};
ghost use Rattle.format.specs.GrammarChunk as grammar;
ghost use Rattle.format.specs.ReadChunk.{function};
ghost use Rattle.read_walk.specs.Inner.Skim.{skim_result};
ghost use Rattle.index_walk.specs.Inner.Written.{Wrote};

use format::limits::ResourceLimits;
use format::refusal::Refusal;
use format_spelling::tally::Tally;
use index_row::{put_head, put_tail};
use read_prototype::pass::{pass_head, pass_tail};
use read_walk::walk::Skimmed;

// Passes over a function and all that nest in it, as the judge does (read_walk), and writes the row of each. Ruled out: rows in the order in which functions end, a row left out.
// Nothing is counted: `unused` is what the parts count in, lent once for all levels so that none keeps room for it.
pub fn write_function(
    s: &[u8],
    limits: ResourceLimits,
    left: usize,
    depth: usize,
    parent: usize,
    from: Skimmed,
    rows: &mut [u32],
    unused: &mut Tally,
) -> Result<Skimmed, Refusal>
    requires { Walkable limits × (from.number ≤ MOST) × (depth + left ≤ DEEPEST) }
    ensures value { (w : grammar.Where) → from.number ≡ w.number → from.instructions ≡ w.instructions → result ≡ skim_result w (function limits left w from.next.at (drop from.next.at s.now)) }
    ensures wrote { (w : grammar.Where) → from.number ≡ w.number → from.instructions ≡ w.instructions → depth ≡ w.depth → parent ≡ w.parent → Wrote w (function limits left w from.next.at (drop from.next.at s.now)) rows.old rows.new }
{
    *unused = [0usize; 4];
    let (head, behind) = pass_head(s, limits, from.instructions, from.next, unused)?;
    put_head(rows, from.number, from.next.at, depth, parent, head);
    let mut nested = Skimmed {
        next: behind,
        number: from.number + 1,
        instructions: from.instructions + head.instructions,
    };
    for _ in 0..head.protos {
        let at = nested.next.at;
        if left == 0 {
            return Err(Refusal::NestingDepth(at));
        }
        if limits.max_total_prototypes < nested.number {
            return Err(Refusal::TotalPrototypes(at));
        }
        nested = write_function(
            s,
            limits,
            left - 1,
            depth + 1,
            from.number,
            nested,
            rows,
            unused,
        )?;
    }
    *unused = [0usize; 4];
    let (tail, next) = pass_tail(s, limits.max_string_bytes, nested.next, unused)?;
    put_tail(rows, from.number, next.at, tail);
    Ok(Skimmed {
        next,
        number: nested.number,
        instructions: nested.instructions,
    })
}

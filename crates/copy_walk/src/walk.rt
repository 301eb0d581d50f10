// The functions of a chunk, judged and copied in one walk: each list is read once.
ghost use Rattle.std.specs.Prelude.{◌≡◌, true, cond, ◌≤◌, leb, drop, IfOk};
ghost use Rattle.std.proofs.Math.Option.{none};
ghost use Rattle.format.specs.Limits.{MOST, Walkable};
ghost use Rattle.format.specs.Form.{Below};
ghost use Rattle.format.specs.GrammarChunk as grammar;
ghost use Rattle.format.specs.ReadChunk.{function};
ghost use Rattle.read_walk.specs.Inner.Skim.{skim_result};
ghost use Rattle.copy_parts.specs.Inner.Ends.{walk_of};
ghost use Rattle.copy_parts.specs.Inner.Parts.{function_bytes};
ghost use Rattle.copy_walk.specs.Inner.Walk.{PutsFunction};

use copy_parts::ends::{Copied, copy_end};
use copy_parts::parts::copy_head;
use copy_put::raw::plus;
use format::limits::ResourceLimits;
use format::refusal::Refusal;
use read_walk::walk::Skimmed;

// The smaller of two numbers.
pub fn within(n: usize, limit: usize) -> usize
    ensures { result ≡ cond (leb n limit) n limit }
{
    if n <= limit { n } else { limit }
}

// Reads a function and all that nest in it, as the judge does (read_walk), and puts their copy at the start of the lent memory: each nested function
// is lent the part behind what is put, before what follows the nested functions. Ruled out: a nested function's source kept, a function's end before the functions that nest in it.
pub fn copy_function(
    s: &[u8],
    limits: ResourceLimits,
    named: bool,
    left: usize,
    from: Skimmed,
    out: &mut [u8],
) -> Result<Copied, Refusal>
    requires { Walkable limits × (from.number ≤ MOST) }
    ensures walk_value { (w : grammar.Where) → from.number ≡ w.number → from.instructions ≡ w.instructions → walk_of result ≡ skim_result w (function limits left w from.next.at (drop from.next.at s.now)) }
    ensures puts_function { (w : grammar.Where) → from.number ≡ w.number → from.instructions ≡ w.instructions → (named ≡ true → w.source ≡ none) → Below 256 s.now → IfOk result (λ k. PutsFunction (function_bytes named) (function limits left w from.next.at (drop from.next.at s.now)) out.old k.upvalues k.len out.new) }
{
    let begun = copy_head(s, limits, named, from.instructions, from.next, out)?;
    let mut len = begun.len;
    let mut nested = Skimmed {
        next: begun.next,
        number: from.number + 1,
        instructions: from.instructions + begun.counts.instructions,
    };
    for _ in 0..begun.counts.protos {
        let at = nested.next.at;
        if left == 0 {
            return Err(Refusal::NestingDepth(at));
        }
        if limits.max_total_prototypes < nested.number {
            return Err(Refusal::TotalPrototypes(at));
        }
        let start = within(len, out.len());
        let one = copy_function(s, limits, false, left - 1, nested, &mut out[start..])?;
        nested = one.walk;
        len = plus(len, one.len);
    }
    copy_end(s, limits, begun.counts.upvalues, nested, out, len)
}

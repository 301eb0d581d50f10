// The functions of a chunk, judged and copied in full in one walk: as copy_walk does, with the parent's source handed down.
ghost use Rattle.std.specs.Prelude.{◌≡◌, ◌≤◌, drop, IfOk};
ghost use Rattle.format.specs.Limits.{MOST, Walkable};
ghost use Rattle.format.specs.Form.{Below};
ghost use Rattle.format.specs.GrammarChunk as grammar;
ghost use Rattle.format.specs.ReadChunk.{function};
ghost use Rattle.read_walk.specs.Inner.Skim.{skim_result};
ghost use Rattle.copy_parts.specs.Inner.Ends.{walk_of};
ghost use Rattle.copy_walk.specs.Inner.Walk.{PutsFunction};
ghost use Rattle.read_walk.specs.Inner.Source.{source_at};
ghost use Rattle.copy_full_walk.specs.Inner.Walk.{full_bytes};

use crate::source::source_of;
use copy_parts::ends::{Copied, copy_end};
use copy_parts::parts::copy_head;
use copy_put::raw::plus;
use copy_walk::walk::within;
use format::limits::ResourceLimits;
use format::refusal::Refusal;
use read_walk::walk::Skimmed;

// Reads a function and all that nest in it, as the judge does (read_walk), and puts their full copy at the start of the lent memory, by the place at which the source is spelt of the function around it; main has none around it.
// Ruled out: a nested function told another's source than its parent's, a source written that is its parent's, one left out that is not.
pub fn copy_in_full(
    s: &[u8],
    limits: ResourceLimits,
    parent: usize,
    left: usize,
    from: Skimmed,
    out: &mut [u8],
) -> Result<Copied, Refusal>
    requires { Walkable limits × (from.number ≤ MOST) }
    ensures walk_value { (w : grammar.Where) → from.number ≡ w.number → from.instructions ≡ w.instructions → walk_of result ≡ skim_result w (function limits left w from.next.at (drop from.next.at s.now)) }
    ensures puts_function { (w : grammar.Where) → from.number ≡ w.number → from.instructions ≡ w.instructions → w.source ≡ source_at limits.max_string_bytes s.now parent → Below 256 s.now → IfOk result (λ k. PutsFunction (full_bytes w.source) (function limits left w from.next.at (drop from.next.at s.now)) out.old k.upvalues k.len out.new) }
{
    let source = source_of(s, limits.max_string_bytes, parent, from.next.at);
    let own = source.own;
    let begun = copy_head(s, limits, source.written, from.instructions, from.next, out)?;
    let mut len = begun.len;
    let mut nested = Skimmed {
        next: begun.next,
        number: from.number + 1,
        instructions: from.instructions + begun.counts.instructions,
    };
    for _ in 0..begun.counts.protos {
        let at = nested.next.at;
        if left == 0 {
            return Err(Refusal::NestingDepth(at));
        }
        if limits.max_total_prototypes < nested.number {
            return Err(Refusal::TotalPrototypes(at));
        }
        let start = within(len, out.len());
        let one = copy_in_full(s, limits, own, left - 1, nested, &mut out[start..])?;
        nested = one.walk;
        len = plus(len, one.len);
    }
    copy_end(s, limits, begun.counts.upvalues, nested, out, len)
}

// The walk: one pass that judges the functions by the stricter grammar. As crates/read_walk, but that nothing is counted of how they are spelt.
ghost use Rattle.std.specs.Prelude.{◌≡◌, ◌≤◌, drop};
ghost use Rattle.format.specs.Limits.{DEEPEST, MOST, Walkable};
ghost use Rattle.format.specs.GrammarChunk as grammar;
ghost use Rattle.format.specs.ReadChunk.{forest};
ghost use Rattle.format_strict.specs.ReadStrict.{strict_function};
ghost use Rattle.read_walk.specs.Inner.Skim.{entered_by, skim_result};

use crate::parts::{pass_head, pass_tail};
use format::limits::ResourceLimits;
use format::refusal::Refusal;
use read_walk::walk::Skimmed;

// Passes over a function and all that nest in it, at most `left` deep. Ruled out: nested functions that are not counted, instructions that are counted twice.
#[cycle(pass_function_pass_functions)]
fn pass_function(
    s: &[u8],
    limits: ResourceLimits,
    left: usize,
    from: Skimmed,
) -> Result<Skimmed, Refusal>
    requires { Walkable limits × (from.number ≤ MOST) }
    ensures { (w : grammar.Where) → from.number ≡ w.number → from.instructions ≡ w.instructions → result ≡ skim_result w (strict_function limits left w from.next.at (drop from.next.at s.now)) }
{
    let (instructions, protos, behind) = pass_head(s, limits, from.instructions, from.next)?;
    let mut nested = Skimmed {
        next: behind,
        number: from.number + 1,
        instructions: from.instructions + instructions,
    };
    if protos > 0 {
        nested = pass_functions(s, limits, protos, left, nested)?;
    }
    let next = pass_tail(s, limits.max_string_bytes, nested.next)?;
    Ok(Skimmed {
        next,
        number: nested.number,
        instructions: nested.instructions,
    })
}

// Passes over n functions one after the other, each nested in a function below which functions nest at most `left` deep.
#[cycle(pass_function_pass_functions)]
fn pass_functions(
    s: &[u8],
    limits: ResourceLimits,
    n: usize,
    left: usize,
    from: Skimmed,
) -> Result<Skimmed, Refusal>
    requires { Walkable limits }
    ensures { (w : grammar.Where) → from.number ≡ w.number → from.instructions ≡ w.instructions → result ≡ skim_result w (forest n (entered_by (strict_function limits) limits left) w from.next.at (drop from.next.at s.now)) }
{
    let mut passed = from;
    for _ in 0..n {
        let at = passed.next.at;
        if left == 0 {
            return Err(Refusal::NestingDepth(at));
        }
        if limits.max_total_prototypes < passed.number {
            return Err(Refusal::TotalPrototypes(at));
        }
        passed = pass_function(s, limits, left - 1, passed)?;
    }
    Ok(passed)
}

// Passes over main and all that nest in it, at most `left` deep: as one function of a list, so that the compiler puts pass_function, which then has one caller, into the loop.
pub fn pass_main(
    s: &[u8],
    limits: ResourceLimits,
    left: usize,
    from: Skimmed,
) -> Result<Skimmed, Refusal>
    requires { Walkable limits × (left ≤ DEEPEST) }
    ensures { (w : grammar.Where) → w.number ≡ 0 → from.number ≡ w.number → from.instructions ≡ w.instructions → result ≡ skim_result w (strict_function limits left w from.next.at (drop from.next.at s.now)) }
{
    pass_functions(s, limits, 1, left + 1, from)
}

// The walk: one pass that judges the functions, without rows, depths and parents, and counts where a copy spells otherwise. Of sources it hands down the place at which the parent's is spelt.
ghost use Rattle.std.specs.Prelude.{◌≡◌, ◌≤◌, drop};
ghost use Rattle.std.proofs.Math.Option.{none};
ghost use Rattle.format.specs.Limits.{DEEPEST, MOST, Walkable};
ghost use Rattle.format.specs.GrammarChunk as grammar;
ghost use Rattle.format.specs.ReadChunk.{forest, function};
ghost use Rattle.format_spelling.specs.Spelling.{◌⊕◌};
ghost use Rattle.format_spelling.specs.ReadSpelling as count;
ghost use Rattle.format_spelling.specs.Inner.Tally.{counts, Fits, Room, Adds};
ghost use Rattle.read_walk.specs.Inner.Skim.{entered, skim_result};
ghost use Rattle.read_walk.specs.Inner.Source.{source_at, repeats_at, unpadded_at, handed};
ghost use Rattle.read_walk.specs.Inner.Spelt.{nested_spelt, own_source};

use crate::source::{one_nested, one_where, repeats, unpadded};
use format::limits::ResourceLimits;
use format::refusal::Refusal;
use format::spelling::Spelling;
use format_spelling::tally::{Tally, add};
use read_prototype::pass::{pass_head, pass_tail};
use slice::cursor::Cursor;

// Where a walk stands: the number of the next function, and the instructions of all before it.
#[derive(Clone, Copy)]
pub struct Skimmed {
    pub next: Cursor,
    pub number: usize,
    pub instructions: usize,
}

// Counts a function's own source, where it is spelt: the archive copy drops it but for main's, the full copy where it is the parent's. The two are read again, at their places. Shows where the source is spelt that the functions in it inherit.
// Ruled out: main's counted, the grandparent's handed down for the parent's.
fn own_source(
    s: &[u8],
    max_string_bytes: usize,
    named: bool,
    number: usize,
    own: usize,
    parent: usize,
    tally: &mut Tally,
) -> usize
    requires { Fits (counts tally.old) (own_source named number (repeats_at max_string_bytes s.now own parent)) }
    ensures value { result ≡ handed named (unpadded_at s.now own) parent }
    ensures tally_after { counts tally.new ≡ counts tally.old ⊕ own_source named number (repeats_at max_string_bytes s.now own parent) }
{
    if named {
        let repeated = repeats(s, max_string_bytes, own, parent);
        let more = Spelling {
            padded: 0,
            filled: 0,
            sources: one_nested(number),
            repeated: one_where(repeated),
        };
        add(tally, more);
        return unpadded(s, own);
    }
    parent
}

// Passes over a function and all that nest in it, at most `left` deep; its parent's source is spelt at `source`. Most functions have none within them: these call nothing, and where the walk stands stays in registers.
// Ruled out: nested functions that are not counted, instructions that are counted twice.
#[cycle(skim_function_skim_functions)]
fn skim_function(
    s: &[u8],
    limits: ResourceLimits,
    left: usize,
    from: Skimmed,
    source: usize,
    tally: &mut Tally,
) -> Result<Skimmed, Refusal>
    requires { Walkable limits × (from.number ≤ MOST) × Room tally.old from.next.at }
    ensures value { (w : grammar.Where) → from.number ≡ w.number → from.instructions ≡ w.instructions → result ≡ skim_result w (function limits left w from.next.at (drop from.next.at s.now)) }
    ensures adds { (w : grammar.Where) → from.number ≡ w.number → from.instructions ≡ w.instructions → w.source ≡ source_at limits.max_string_bytes s.now source → Adds (function limits left w from.next.at (drop from.next.at s.now)) (count.function limits left w from.next.at (drop from.next.at s.now)) tally.old tally.new }
{
    let (counts, behind) = pass_head(s, limits, from.instructions, from.next, tally)?;
    let own = own_source(
        s,
        limits.max_string_bytes,
        counts.named,
        from.number,
        from.next.at,
        source,
        tally,
    );
    let mut nested = Skimmed {
        next: behind,
        number: from.number + 1,
        instructions: from.instructions + counts.instructions,
    };
    if counts.protos > 0 {
        nested = skim_functions(s, limits, counts.protos, left, nested, own, tally)?;
    }
    let (_, next) = pass_tail(s, limits.max_string_bytes, nested.next, tally)?;
    Ok(Skimmed {
        next: next,
        number: nested.number,
        instructions: nested.instructions,
    })
}

// Passes over n functions one after the other, each nested in a function below which functions nest at most `left` deep.
#[cycle(skim_function_skim_functions)]
fn skim_functions(
    s: &[u8],
    limits: ResourceLimits,
    n: usize,
    left: usize,
    from: Skimmed,
    source: usize,
    tally: &mut Tally,
) -> Result<Skimmed, Refusal>
    requires { Walkable limits × Room tally.old from.next.at }
    ensures value { (w : grammar.Where) → from.number ≡ w.number → from.instructions ≡ w.instructions → result ≡ skim_result w (forest n (entered limits left) w from.next.at (drop from.next.at s.now)) }
    ensures adds { (w : grammar.Where) → from.number ≡ w.number → from.instructions ≡ w.instructions → w.source ≡ source_at limits.max_string_bytes s.now source → Adds (forest n (entered limits left) w from.next.at (drop from.next.at s.now)) (count.forest n (entered limits left) (nested_spelt limits left) w from.next.at (drop from.next.at s.now)) tally.old tally.new }
{
    let mut skimmed = from;
    for _ in 0..n {
        let at = skimmed.next.at;
        if left == 0 {
            return Err(Refusal::NestingDepth(at));
        }
        if limits.max_total_prototypes < skimmed.number {
            return Err(Refusal::TotalPrototypes(at));
        }
        skimmed = skim_function(s, limits, left - 1, skimmed, source, tally)?;
    }
    Ok(skimmed)
}

// Passes over main and all that nest in it, at most `left` deep: as one function of a list, so that the compiler puts skim_function, which then has one caller, into the loop. Main has no parent: no string begins at the end of the slice.
pub fn skim_main(
    s: &[u8],
    limits: ResourceLimits,
    left: usize,
    from: Skimmed,
    tally: &mut Tally,
) -> Result<Skimmed, Refusal>
    requires { Walkable limits × (left ≤ DEEPEST) × Room tally.old from.next.at }
    ensures value { (w : grammar.Where) → w.number ≡ 0 → from.number ≡ w.number → from.instructions ≡ w.instructions → result ≡ skim_result w (function limits left w from.next.at (drop from.next.at s.now)) }
    ensures adds { (w : grammar.Where) → w.number ≡ 0 → w.source ≡ none → from.number ≡ w.number → from.instructions ≡ w.instructions → Adds (function limits left w from.next.at (drop from.next.at s.now)) (count.function limits left w from.next.at (drop from.next.at s.now)) tally.old tally.new }
{
    skim_functions(s, limits, 1, left + 1, from, s.len(), tally)
}

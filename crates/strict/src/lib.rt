// The stricter reading (02, item 7), which reads as Lua's own loader does: a pass judges the chunk by the stricter grammar, and keeps nothing; where it accepts, the ordinary reading shows the same reading (format_strict/proofs/StrictLaws.antt).
#![tactic(auto)]

ghost use Rattle.std.specs.Prelude.{◌≡◌, ◌≤◌};
ghost use Rattle.format.specs.Limits.{DEEPEST, Walkable};
ghost use Rattle.format_strict.specs.ReadStrict.{strict_main, strict_read};
ghost use Rattle.format_spelling.specs.ReadSpelling.{spelling};
ghost use Rattle.slice.specs.Inner.Results.{cursor_result};
ghost use Rattle.show_chunk.specs.Summaries.{shown_summary};
ghost use Rattle.strict.specs.Inner.Opening.{strict_opening};

use format::limits::ResourceLimits;
use format::refusal::Refusal;
use read_header::{before_format, behind_format, expect};
use read_walk::walk::Skimmed;
use show_chunk::summary::{ChunkSummary, chunk_summary};
use slice::cursor::{Cursor, read_exact};
use strict_walk::walk::pass_main;

// The header, whose format byte must be 0, and the byte behind it, which is forgotten. Ruled out: the format byte looked at behind the bytes that follow it, another place than its own.
fn pass_opening(s: &[u8]) -> Result<Cursor, Refusal>
    ensures { result ≡ cursor_result (strict_opening 0 s.now) }
{
    let place = before_format(s, Cursor { at: 0 })?;
    let behind = expect(s, place, b"\0", Refusal::Format(place.at))?;
    let last = behind_format(s, behind)?;
    read_exact(s, last, 1)
}

// Judges a chunk by the stricter grammar.
fn judge(s: &[u8], limits: ResourceLimits) -> Result<Cursor, Refusal>
    requires { Walkable limits × (limits.max_nesting_depth ≤ DEEPEST) }
    ensures { result ≡ cursor_result (strict_main limits 0 s.now) }
{
    let first = pass_opening(s)?;
    let from = Skimmed {
        next: first,
        number: 0,
        instructions: 0,
    };
    let passed = pass_main(s, limits, limits.max_nesting_depth, from)?;
    Ok(passed.next)
}

// The summary of a chunk that is read strictly: what the ordinary call shows. Ruled out: the stricter pass left out, a chunk refused that Lua's loader takes within the limits.
pub fn strict_summary(s: &[u8], limits: ResourceLimits) -> Result<ChunkSummary, Refusal>
    ensures { result ≡ shown_summary (spelling limits s.now) (strict_read limits s.now) }
{
    let within = limits.within_ceilings();
    if !within {
        return Err(Refusal::LimitAboveCeiling);
    }
    if limits.max_input_bytes < s.len() {
        return Err(Refusal::InputBytes);
    }
    judge(s, limits)?;
    chunk_summary(s, limits)
}

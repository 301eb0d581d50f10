// What the writer goes by: every decision before it writes, and one step.
#![tactic(auto)]

ghost use Rattle.std.specs.Prelude.{◌≡◌, ◌<◌, ◌≤◌, [], ◌∷◌, length};
ghost use Rattle.format.specs.Limits.{MOST};
ghost use Rattle.format.specs.ReadChunk as format;
ghost use Rattle.validate_rules.specs.Findings.{MAX-DIAGNOSTICS, prepend};
ghost use Rattle.validate_search.specs.Inner.Position.{out_of, stepped, start_position};
ghost use Rattle.validate_plan.specs.Inner.Plan.{plan_of, Planned};

use format::limits::ResourceLimits;
use format::refusal::Refusal;
use read_chunk::MAIN_AT;
use read_chunk::summary::judge_chunk;
use slice::cursor::Cursor;
use validate_rules::finding::{Finding, MAX_DIAGNOSTICS, Verdict};
use validate_search::search::{Position, Step, advance, start};
use validate_verdict::tally::{tally, verdict_of};
use validate_verdict::verdict::kept_count;

// The verdict, how many findings are to be written, and the position before the first.
#[derive(Clone, Copy)]
pub struct Plan {
    pub verdict: Verdict,
    pub count: usize,
    pub start: Position,
}

// All findings, where there is room for them.
fn decide(
    s: &[u8],
    limits: ResourceLimits,
    room: usize,
    place: Cursor,
    kept: u64,
) -> Result<Plan, Refusal>
    requires { limits.max_total_instructions ≤ MOST }
    ensures { result ≡ plan_of (out_of limits s.now MAX-DIAGNOSTICS (start_position place.at kept)) room (start_position place.at kept) }
{
    let totals = tally(s, limits, MAX_DIAGNOSTICS, place, kept);
    let count = totals.count as usize;
    if room < count {
        return Err(Refusal::LentSpace);
    }
    let verdict = verdict_of(totals);
    let start = start(place, kept);
    Ok(Plan {
        verdict,
        count,
        start,
    })
}

// Judges a chunk, counts its findings and decides what their writer answers and writes into so much room; on a refusal it
// writes nothing. The first pass judges, the second counts; the writer's is the third.
pub fn prepare(s: &[u8], limits: ResourceLimits, room: usize) -> Result<Plan, Refusal>
    ensures { Planned limits s.now room result }
{
    let summary = judge_chunk(s, limits)?;
    let kept = kept_count(summary);
    decide(s, limits, room, Cursor { at: MAIN_AT }, kept)
}

// One step of the search, up to the maximum of the Rust.
pub fn forward(s: &[u8], limits: ResourceLimits, p: Position) -> Step
    requires { limits.max_total_instructions ≤ MOST }
    ensures { out_of limits s.now MAX-DIAGNOSTICS p ≡ stepped limits s.now MAX-DIAGNOSTICS result }
{
    advance(s, limits, MAX_DIAGNOSTICS, p)
}

// The next finding and the position behind it, where one is left: a writer's loop has no branch.
// Ruled out: a finding passed over, one that is found again.
pub fn next_finding(s: &[u8], limits: ResourceLimits, p: Position) -> (Finding, Position)
    requires { (limits.max_total_instructions ≤ MOST) × (0 < length (out_of limits s.now MAX-DIAGNOSTICS p).findings) }
    ensures { out_of limits s.now MAX-DIAGNOSTICS p ≡ prepend (result.0 ∷ []) (out_of limits s.now MAX-DIAGNOSTICS result.1) }
{
    let Step::Found(finding, next) = forward(s, limits, p) else {
        unreachable!();
    };
    (finding, next)
}

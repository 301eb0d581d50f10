// The verdict on a chunk, and how many findings there are.
ghost use Rattle.std.specs.Prelude.{◌≡◌, ◌<◌};
ghost use Rattle.format.specs.ReadChunk as format;
ghost use Rattle.validate_verdict.specs.Answers.{shownVerdict, shownCount};
ghost use Rattle.validate_verdict.specs.Inner.Counts.{totals_result, warning_count};

use crate::tally::{Totals, tally, verdict_of};
use format::limits::ResourceLimits;
use format::refusal::Refusal;
use read_chunk::MAIN_AT;
use read_chunk::summary::{Summary, judge_chunk};
use slice::cursor::Cursor;
use validate_rules::finding::{MAX_DIAGNOSTICS, Verdict};

// How many of a reading's warnings were kept; and that its number of functions is one of 64 bits.
pub fn kept_count(summary: Summary) -> u64
    ensures { (result ≡ warning_count summary.warnings) × (summary.functions < 18446744073709551616) }
{
    let warnings = summary.warnings;
    match (warnings.first, warnings.second) {
        (_, Some(_)) => 2,
        (Some(_), None) => 1,
        (None, None) => 0,
    }
}

// All findings of a chunk, counted. The first pass judges, the second searches. Ruled out: dropped warnings that count.
fn chunk_totals(s: &[u8], limits: ResourceLimits) -> Result<Totals, Refusal>
    ensures { result ≡ totals_result (format.read limits s.now) }
{
    let summary = judge_chunk(s, limits)?;
    let kept = kept_count(summary);
    let totals = tally(s, limits, MAX_DIAGNOSTICS, Cursor { at: MAIN_AT }, kept);
    Ok(totals)
}

// The verdict alone. Ruled out: incomplete at the first finding, valid for analysis where an error was found.
pub fn chunk_verdict(s: &[u8], limits: ResourceLimits) -> Result<Verdict, Refusal>
    ensures { result ≡ shownVerdict (format.read limits s.now) }
{
    let totals = chunk_totals(s, limits)?;
    Ok(verdict_of(totals))
}

// The number of findings. Ruled out: the reading's warnings counted with them.
pub fn finding_count(s: &[u8], limits: ResourceLimits) -> Result<u64, Refusal>
    ensures { result ≡ shownCount (format.read limits s.now) }
{
    let totals = chunk_totals(s, limits)?;
    Ok(totals.count)
}

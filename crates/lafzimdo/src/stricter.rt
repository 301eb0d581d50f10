// The stricter reading.
ghost use Rattle.std.specs.Prelude.{◌≡◌};
ghost use Rattle.format_spelling.specs.ReadSpelling.{spelling};
ghost use Rattle.format_strict.specs.ReadStrict.{strict_read};
ghost use Rattle.show_chunk.specs.Summaries.{shown_summary};
ghost use Rattle.c_boundary.specs.Status.{limits_of, status, written, in_numbers};
ghost use Rattle.lafzimdo.specs.Answers.{ofSummary};

use c_boundary::{answered, limits_of};
use c_numbers::summary::summary_numbers;
use format::refusal::Refusal;
use strict::strict_summary;

fn strict_summary_in_numbers(chunk: &[u8], limits: &[u64; 9]) -> Result<[u64; 15], Refusal>
    ensures { in_numbers result ≡ ofSummary (shown_summary (spelling (limits_of limits.now) chunk.now) (strict_read (limits_of limits.now) chunk.now)) }
{
    let y = strict_summary(chunk, limits_of(limits))?;
    Ok(summary_numbers(y))
}

// Reads a chunk under limits as Lua's own loader does, and shows what `lafzimdo_summary` shows. Ruled out: the ordinary reading, an array that is touched where the answer is a refusal.
#[unsafe(no_mangle)]
pub extern "C" fn lafzimdo_strict_summary(
    chunk: &[u8],
    limits: &[u64; 9],
    out: &mut [u64; 15],
) -> u64
    ensures value { result ≡ status (ofSummary (shown_summary (spelling (limits_of limits.now) chunk.now) (strict_read (limits_of limits.now) chunk.now))) }
    ensures out_after { out.new ≡ written (ofSummary (shown_summary (spelling (limits_of limits.now) chunk.now) (strict_read (limits_of limits.now) chunk.now))) out.old }
{
    answered(strict_summary_in_numbers(chunk, limits), out)
}

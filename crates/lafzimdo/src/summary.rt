// A chunk's summary.
ghost use Rattle.std.specs.Prelude.{◌≡◌};
ghost use Rattle.format.specs.ReadChunk.{read};
ghost use Rattle.format_spelling.specs.ReadSpelling.{spelling};
ghost use Rattle.show_chunk.specs.Summaries.{shown_summary};
ghost use Rattle.c_boundary.specs.Status.{limits_of, status, written, in_numbers};
ghost use Rattle.lafzimdo.specs.Answers.{ofSummary};

use c_boundary::{answered, limits_of};
use c_numbers::summary::summary_numbers;
use format::refusal::Refusal;
use show_chunk::summary::chunk_summary;

fn summary_in_numbers(chunk: &[u8], limits: &[u64; 9]) -> Result<[u64; 15], Refusal>
    ensures { in_numbers result ≡ ofSummary (shown_summary (spelling (limits_of limits.now) chunk.now) (read (limits_of limits.now) chunk.now)) }
{
    let y = chunk_summary(chunk, limits_of(limits))?;
    Ok(summary_numbers(y))
}

// Reads a chunk under limits, and shows what it is: its header, its totals, its warnings, and how many of its numbers are padded.
// Ruled out: every chunk called cut short, an array that is touched where the answer is a refusal.
#[unsafe(no_mangle)]
pub extern "C" fn lafzimdo_summary(chunk: &[u8], limits: &[u64; 9], out: &mut [u64; 15]) -> u64
    ensures value { result ≡ status (ofSummary (shown_summary (spelling (limits_of limits.now) chunk.now) (read (limits_of limits.now) chunk.now))) }
    ensures out_after { out.new ≡ written (ofSummary (shown_summary (spelling (limits_of limits.now) chunk.now) (read (limits_of limits.now) chunk.now))) out.old }
{
    answered(summary_in_numbers(chunk, limits), out)
}

// What a chunk shows as a whole.
ghost use Rattle.std.specs.Prelude.{◌≡◌};
ghost use Rattle.format.specs.ReadChunk.{read};
ghost use Rattle.format_spelling.specs.ReadSpelling.{spelling};
ghost use Rattle.show_chunk.specs.Summaries.{shown_summary};

use format::limits::ResourceLimits;
use format::refusal::Refusal;
use read_chunk::summary::{Summary, judge_spelling};

#[derive(Clone, Copy)]
pub struct ChunkSummary {
    pub summary: Summary,
    // How many of the chunk's numbers, string sizes and counts among them, are not in their shortest form.
    pub padded_numbers: usize,
}

// Header fields, warnings, the number of functions, place and length of the trailing bytes, and how many numbers are padded.
// Ruled out: every chunk called cut short, a number of functions that leaves out the nested ones, numbers that are never padded.
pub fn chunk_summary(s: &[u8], limits: ResourceLimits) -> Result<ChunkSummary, Refusal>
    ensures { result ≡ shown_summary (spelling limits s.now) (read limits s.now) }
{
    let (summary, spelling) = judge_spelling(s, limits)?;
    Ok(ChunkSummary {
        summary,
        padded_numbers: spelling.padded,
    })
}

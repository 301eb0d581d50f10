// Bytes that are shown as a part of the caller's chunk.
ghost use Rattle.std.specs.Prelude.{◌≡◌, take, drop};
ghost use Rattle.format.specs.ReadChunk.{read};
ghost use Rattle.show_chunk.specs.Summaries.{trailing_of};

use format::limits::ResourceLimits;
use read_chunk::summary::judge_chunk;
use slice::bytes::{bytes_at, bytes_from};

// The bytes of a string by its place and length. Where the chunk does not reach so far they are those that are there: 01 leaves that answer free.
// Ruled out: the string's size among its bytes, one byte too few.
pub fn string_bytes(s: &[u8], place: usize, len: usize) -> &[u8]
    ensures { result.now ≡ take len (drop place s.now) }
{
    bytes_at(s, place, len)
}

// The bytes behind main. Of a chunk that is refused there are none: 01 leaves that answer free.
// Ruled out: trailing bytes that are never there, the whole chunk.
pub fn trailing_bytes(s: &[u8], limits: ResourceLimits) -> &[u8]
    ensures { result.now ≡ trailing_of (read limits s.now) }
{
    let judged = judge_chunk(s, limits);
    match judged {
        Err(_) => bytes_from(s, s.len()),
        Ok(summary) => bytes_from(s, summary.trailing_at),
    }
}

// chunk.rs, `encode_chunk_lua54`: the archive copy of a chunk, written into lent memory.
// A chunk that is spelt as its copy is judged in one pass and copied as it stands, but for its first 32 bytes (plain.rt).
// Of any other, a walk judges and copies as far as the copy has room: lent next to nothing it measures, lent enough it writes (whole.rt). Where main's first number is padded that walk is taken at once.
#![tactic(auto)]

pub mod plain;
pub mod whole;

ghost use Rattle.std.specs.Prelude.{◌≡◌, length};
ghost use Rattle.format.specs.ReadChunk as format;
ghost use Rattle.copy.specs.Copied.{shown_length, shown_copy, copy_written};

use crate::plain::{begins_padded, is_plain, main_upvalues, put_plain};
use crate::whole::copy_chunk;
use format::limits::ResourceLimits;
use format::refusal::Refusal;
use read_chunk::summary::judge_spelling;

// The length of a copy, by the walk.
fn measure(s: &[u8], limits: ResourceLimits) -> Result<usize, Refusal>
    ensures { result ≡ shown_length (format.read limits s.now) }
{
    let mut nowhere = [0u8; 1];
    copy_chunk(s, limits, &mut nowhere)
}

// A copy, by the walk: the first measures, the second writes.
fn respell(s: &[u8], limits: ResourceLimits, out: &mut [u8]) -> Result<usize, Refusal>
    ensures value { result ≡ shown_copy (length out.old) (format.read limits s.now) }
    ensures out_after { out.new ≡ copy_written out.old (format.read limits s.now) }
{
    let len = measure(s, limits)?;
    if out.len() < len {
        return Err(Refusal::LentSpace);
    }
    copy_chunk(s, limits, out)
}

// The length of a chunk's archive copy. Ruled out: the length of the chunk itself where its copy is spelt otherwise, a length for a chunk that is refused.
pub fn copy_length(s: &[u8], limits: ResourceLimits) -> Result<usize, Refusal>
    ensures { result ≡ shown_length (format.read limits s.now) }
{
    if begins_padded(s) {
        return measure(s, limits);
    }
    let (_, spelling) = judge_spelling(s, limits)?;
    if !is_plain(spelling) {
        return measure(s, limits);
    }
    Ok(s.len())
}

// Writes the archive copy of a chunk at the start of `out`. The first pass judges; then bytes are copied, or two walks measure and write.
// Ruled out: the chunk handed back untouched, memory that is touched where the answer is a refusal.
pub fn encode_chunk_lua54(
    s: &[u8],
    limits: ResourceLimits,
    out: &mut [u8],
) -> Result<usize, Refusal>
    ensures value { result ≡ shown_copy (length out.old) (format.read limits s.now) }
    ensures out_after { out.new ≡ copy_written out.old (format.read limits s.now) }
{
    if begins_padded(s) {
        return respell(s, limits, out);
    }
    let (_, spelling) = judge_spelling(s, limits)?;
    if !is_plain(spelling) {
        return respell(s, limits, out);
    }
    if out.len() < s.len() {
        Err(Refusal::LentSpace)
    } else {
        let upvalues = main_upvalues(s, limits);
        put_plain(s, upvalues, out);
        Ok(s.len())
    }
}

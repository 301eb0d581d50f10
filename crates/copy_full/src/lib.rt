// The full copy of a chunk (02, item 6), written into lent memory: the archive copy, with each nested source that is not its parent's. ldump.c keeps these.
// A chunk that is spelt as its full copy is copied as it is, but for its front, as a chunk that is spelt as its archive copy is there (crates/copy/src/lib.rt); of any other, the walk of copy_full_walk measures and writes (whole.rt).
#![tactic(auto)]

mod plain;
mod whole;

ghost use Rattle.std.specs.Prelude.{◌≡◌, length};
ghost use Rattle.format.specs.ReadChunk as format;
ghost use Rattle.copy_full.specs.InFull.{shown_full_length, shown_full, full_written};

use crate::plain::is_plain_in_full;
use crate::whole::full_chunk;
use copy::plain::{begins_padded, main_upvalues, put_plain};
use format::limits::ResourceLimits;
use format::refusal::Refusal;
use read_chunk::summary::judge_spelling;

// The length of a full copy, by the walk.
fn measure(s: &[u8], limits: ResourceLimits) -> Result<usize, Refusal>
    ensures { result ≡ shown_full_length (format.read limits s.now) }
{
    let mut nowhere = [0u8; 1];
    full_chunk(s, limits, &mut nowhere)
}

// A full copy, by the walk: the first measures, the second writes.
fn respell(s: &[u8], limits: ResourceLimits, out: &mut [u8]) -> Result<usize, Refusal>
    ensures value { result ≡ shown_full (length out.old) (format.read limits s.now) }
    ensures out_after { out.new ≡ full_written out.old (format.read limits s.now) }
{
    let len = measure(s, limits)?;
    if out.len() < len {
        return Err(Refusal::LentSpace);
    }
    full_chunk(s, limits, out)
}

// The length of a chunk's full copy. Ruled out: the length of the archive copy where a nested source is kept, the length of the chunk itself where its copy is spelt otherwise.
pub fn full_copy_length(s: &[u8], limits: ResourceLimits) -> Result<usize, Refusal>
    ensures { result ≡ shown_full_length (format.read limits s.now) }
{
    if begins_padded(s) {
        return measure(s, limits);
    }
    let (_, spelling) = judge_spelling(s, limits)?;
    if !is_plain_in_full(spelling) {
        return measure(s, limits);
    }
    Ok(s.len())
}

// Writes the full copy of a chunk at the start of `out`. Ruled out: 26 judged by the archive copy's length, memory that is touched where the answer is a refusal.
pub fn full_copy(s: &[u8], limits: ResourceLimits, out: &mut [u8]) -> Result<usize, Refusal>
    ensures value { result ≡ shown_full (length out.old) (format.read limits s.now) }
    ensures out_after { out.new ≡ full_written out.old (format.read limits s.now) }
{
    if begins_padded(s) {
        return respell(s, limits, out);
    }
    let (_, spelling) = judge_spelling(s, limits)?;
    if !is_plain_in_full(spelling) {
        return respell(s, limits, out);
    }
    if out.len() < s.len() {
        Err(Refusal::LentSpace)
    } else {
        let upvalues = main_upvalues(s, limits);
        put_plain(s, upvalues, out);
        Ok(s.len())
    }
}

// The full copy: its length; the copy itself, written into memory that the caller lends beside the array.
ghost use Rattle.std.specs.Prelude.{◌≡◌, length};
ghost use Rattle.format.specs.ReadChunk.{read};
ghost use Rattle.copy_full.specs.InFull.{shown_full_length, shown_full, full_written};
ghost use Rattle.c_boundary.specs.Status.{limits_of, status, written, in_numbers};
ghost use Rattle.lafzimdo.specs.Answers.{ofCopy};

use c_boundary::{answered, limits_of};
use copy_full::{full_copy, full_copy_length};
use format::refusal::Refusal;

fn full_copy_length_in_numbers(chunk: &[u8], limits: &[u64; 9]) -> Result<[u64; 1], Refusal>
    ensures { in_numbers result ≡ ofCopy (shown_full_length (read (limits_of limits.now) chunk.now)) }
{
    let n = full_copy_length(chunk, limits_of(limits))?;
    Ok([n as u64])
}

// The length of the full copy of a chunk. Ruled out: the length of the archive copy where a nested source is kept, a length for a chunk that is refused.
#[unsafe(no_mangle)]
pub extern "C" fn lafzimdo_full_copy_length(
    chunk: &[u8],
    limits: &[u64; 9],
    out: &mut [u64; 1],
) -> u64
    ensures value { result ≡ status (ofCopy (shown_full_length (read (limits_of limits.now) chunk.now))) }
    ensures out_after { out.new ≡ written (ofCopy (shown_full_length (read (limits_of limits.now) chunk.now))) out.old }
{
    answered(full_copy_length_in_numbers(chunk, limits), out)
}

fn full_copy_in_numbers(
    chunk: &[u8],
    limits: &[u64; 9],
    copy: &mut [u8],
) -> Result<[u64; 1], Refusal>
    ensures value { in_numbers result ≡ ofCopy (shown_full (length copy.old) (read (limits_of limits.now) chunk.now)) }
    ensures copy_after { copy.new ≡ full_written copy.old (read (limits_of limits.now) chunk.now) }
{
    let n = full_copy(chunk, limits_of(limits), copy)?;
    Ok([n as u64])
}

// The full copy of a chunk: its length, and its bytes in the lent memory. Ruled out: the archive copy, a copy that is cut to the lent memory.
#[unsafe(no_mangle)]
pub extern "C" fn lafzimdo_full_copy(
    chunk: &[u8],
    limits: &[u64; 9],
    copy: &mut [u8],
    out: &mut [u64; 1],
) -> u64
    ensures value { result ≡ status (ofCopy (shown_full (length copy.old) (read (limits_of limits.now) chunk.now))) }
    ensures out_after { out.new ≡ written (ofCopy (shown_full (length copy.old) (read (limits_of limits.now) chunk.now))) out.old }
    ensures copy_after { copy.new ≡ full_written copy.old (read (limits_of limits.now) chunk.now) }
{
    answered(full_copy_in_numbers(chunk, limits, copy), out)
}

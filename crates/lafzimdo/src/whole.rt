// A whole chunk: the copy's length, the verdict, and how many findings there are.
ghost use Rattle.std.specs.Prelude.{◌≡◌};
ghost use Rattle.format.specs.ReadChunk.{read};
ghost use Rattle.copy.specs.Copied.{shown_length};
ghost use Rattle.validate_verdict.specs.Answers.{shownVerdict, shownCount};
ghost use Rattle.c_boundary.specs.Status.{limits_of, status, written, in_numbers};
ghost use Rattle.lafzimdo.specs.Answers.{ofCopy, ofVerdict, ofCount};

use c_boundary::{answered, limits_of};
use c_finding::verdict_number;
use copy::copy_length;
use format::refusal::Refusal;
use validate_verdict::verdict::{chunk_verdict, finding_count};

fn copy_length_in_numbers(chunk: &[u8], limits: &[u64; 9]) -> Result<[u64; 1], Refusal>
    ensures { in_numbers result ≡ ofCopy (shown_length (read (limits_of limits.now) chunk.now)) }
{
    let n = copy_length(chunk, limits_of(limits))?;
    Ok([n as u64])
}

// The length of the archive copy of a chunk. Ruled out: the length of the chunk itself, a length for a chunk that is refused.
#[unsafe(no_mangle)]
pub extern "C" fn lafzimdo_copy_length(chunk: &[u8], limits: &[u64; 9], out: &mut [u64; 1]) -> u64
    ensures value { result ≡ status (ofCopy (shown_length (read (limits_of limits.now) chunk.now))) }
    ensures out_after { out.new ≡ written (ofCopy (shown_length (read (limits_of limits.now) chunk.now))) out.old }
{
    answered(copy_length_in_numbers(chunk, limits), out)
}

fn verdict_in_numbers(chunk: &[u8], limits: &[u64; 9]) -> Result<[u64; 1], Refusal>
    ensures { in_numbers result ≡ ofVerdict (shownVerdict (read (limits_of limits.now) chunk.now)) }
{
    let v = chunk_verdict(chunk, limits_of(limits))?;
    Ok([verdict_number(v)])
}

// The verdict of validation on a chunk. Ruled out: incomplete at the first finding, valid for analysis where an error was found.
#[unsafe(no_mangle)]
pub extern "C" fn lafzimdo_verdict(chunk: &[u8], limits: &[u64; 9], out: &mut [u64; 1]) -> u64
    ensures value { result ≡ status (ofVerdict (shownVerdict (read (limits_of limits.now) chunk.now))) }
    ensures out_after { out.new ≡ written (ofVerdict (shownVerdict (read (limits_of limits.now) chunk.now))) out.old }
{
    answered(verdict_in_numbers(chunk, limits), out)
}

fn finding_count_in_numbers(chunk: &[u8], limits: &[u64; 9]) -> Result<[u64; 1], Refusal>
    ensures { in_numbers result ≡ ofCount (shownCount (read (limits_of limits.now) chunk.now)) }
{
    let n = finding_count(chunk, limits_of(limits))?;
    Ok([n])
}

// How many findings validation has on a chunk. Ruled out: the reading's warnings counted with them, an instruction's second finding left out.
#[unsafe(no_mangle)]
pub extern "C" fn lafzimdo_finding_count(chunk: &[u8], limits: &[u64; 9], out: &mut [u64; 1]) -> u64
    ensures value { result ≡ status (ofCount (shownCount (read (limits_of limits.now) chunk.now))) }
    ensures out_after { out.new ≡ written (ofCount (shownCount (read (limits_of limits.now) chunk.now))) out.old }
{
    answered(finding_count_in_numbers(chunk, limits), out)
}

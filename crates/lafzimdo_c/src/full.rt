// The full copy: its length; the copy itself, written into memory that the caller lends beside the array.
ghost use Rattle.std.specs.Prelude.{◌≡◌, length};
ghost use Rattle.format.specs.ReadChunk.{read};
ghost use Rattle.copy_full.specs.InFull.{shown_full_length, shown_full, full_written};
ghost use Rattle.c_boundary.specs.Status.{limits_of, status, written};
ghost use Rattle.lafzimdo.specs.Answers.{ofCopy};

// The length of the full copy of a chunk.
#[unsafe(no_mangle)]
pub extern "C" fn lafzimdo_full_copy_length(
    chunk: &[u8],
    limits: &[u64; 9],
    out: &mut [u64; 1],
) -> u64
    ensures value { result ≡ status (ofCopy (shown_full_length (read (limits_of limits.now) chunk.now))) }
    ensures out_after { out.new ≡ written (ofCopy (shown_full_length (read (limits_of limits.now) chunk.now))) out.old }
{
    lafzimdo::full::lafzimdo_full_copy_length(chunk, limits, out)
}

// The full copy of a chunk: its length, and its bytes in the lent memory.
#[unsafe(no_mangle)]
pub extern "C" fn lafzimdo_full_copy(
    chunk: &[u8],
    limits: &[u64; 9],
    copy: &mut [u8],
    out: &mut [u64; 1],
) -> u64
    ensures value { result ≡ status (ofCopy (shown_full (length copy.old) (read (limits_of limits.now) chunk.now))) }
    ensures out_after { out.new ≡ written (ofCopy (shown_full (length copy.old) (read (limits_of limits.now) chunk.now))) out.old }
    ensures copy_after { copy.new ≡ full_written copy.old (read (limits_of limits.now) chunk.now) }
{
    lafzimdo::full::lafzimdo_full_copy(chunk, limits, copy, out)
}

// A whole chunk: the copy's length, the verdict, and how many findings there are.
ghost use Rattle.std.specs.Prelude.{◌≡◌};
ghost use Rattle.format.specs.ReadChunk.{read};
ghost use Rattle.copy.specs.Copied.{shown_length};
ghost use Rattle.validate_verdict.specs.Answers.{shownVerdict, shownCount};
ghost use Rattle.c_boundary.specs.Status.{limits_of, status, written};
ghost use Rattle.lafzimdo.specs.Answers.{ofCopy, ofVerdict, ofCount};

// The length of the archive copy of a chunk.
#[unsafe(no_mangle)]
pub extern "C" fn lafzimdo_copy_length(chunk: &[u8], limits: &[u64; 9], out: &mut [u64; 1]) -> u64
    ensures value { result ≡ status (ofCopy (shown_length (read (limits_of limits.now) chunk.now))) }
    ensures out_after { out.new ≡ written (ofCopy (shown_length (read (limits_of limits.now) chunk.now))) out.old }
{
    lafzimdo::whole::lafzimdo_copy_length(chunk, limits, out)
}

// The verdict of validation on a chunk.
#[unsafe(no_mangle)]
pub extern "C" fn lafzimdo_verdict(chunk: &[u8], limits: &[u64; 9], out: &mut [u64; 1]) -> u64
    ensures value { result ≡ status (ofVerdict (shownVerdict (read (limits_of limits.now) chunk.now))) }
    ensures out_after { out.new ≡ written (ofVerdict (shownVerdict (read (limits_of limits.now) chunk.now))) out.old }
{
    lafzimdo::whole::lafzimdo_verdict(chunk, limits, out)
}

// How many findings validation has on a chunk.
#[unsafe(no_mangle)]
pub extern "C" fn lafzimdo_finding_count(chunk: &[u8], limits: &[u64; 9], out: &mut [u64; 1]) -> u64
    ensures value { result ≡ status (ofCount (shownCount (read (limits_of limits.now) chunk.now))) }
    ensures out_after { out.new ≡ written (ofCount (shownCount (read (limits_of limits.now) chunk.now))) out.old }
{
    lafzimdo::whole::lafzimdo_finding_count(chunk, limits, out)
}

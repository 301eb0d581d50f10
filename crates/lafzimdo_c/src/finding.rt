// The findings of a chunk in a lent list, as crate c_findings writes them.
ghost use Rattle.std.specs.Prelude.{◌≡◌, ◌/◌, length};
ghost use Rattle.format.specs.ReadChunk.{read};
ghost use Rattle.validate_plan.specs.Validated.{shown_findings};
ghost use Rattle.c_boundary.specs.Status.{limits_of, status, written};
ghost use Rattle.c_findings.specs.FindingNumbers.{of_findings, numbers_written};

// Validates a chunk: the verdict, the number of findings, and the findings in the lent list, four numbers each.
#[unsafe(no_mangle)]
pub extern "C" fn lafzimdo_findings(
    chunk: &[u8],
    limits: &[u64; 9],
    list: &mut [u64],
    out: &mut [u64; 2],
) -> u64
    ensures value { result ≡ status (of_findings (shown_findings (length list.old / 4) (read (limits_of limits.now) chunk.now))) }
    ensures out_after { out.new ≡ written (of_findings (shown_findings (length list.old / 4) (read (limits_of limits.now) chunk.now))) out.old }
    ensures list_after { list.new ≡ numbers_written list.old (read (limits_of limits.now) chunk.now) }
{
    lafzimdo::finding::lafzimdo_findings(chunk, limits, list, out)
}

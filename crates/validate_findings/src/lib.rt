// validator.rs: the findings of a chunk, in a list of records that the caller lends. The core is crate `validate_verdict`, which goes by value; here is the thin writer over it.
#![tactic(auto)]

pub mod array;

ghost use Rattle.std.specs.Prelude.{◌≡◌, length};
ghost use Rattle.format.specs.ReadChunk as format;
ghost use Rattle.validate_plan.specs.Validated.{shown_findings, findings_written};

use format::limits::ResourceLimits;
use format::refusal::Refusal;
use validate_plan::{next_finding, prepare};
use validate_rules::finding::{Finding, Verdict};

// The findings in the order found, in the first places of the list, and the verdict with their number. Every decision is
// taken before the loop, and the loop has no branch.
// Ruled out: success that writes nothing, a refusal that writes.
pub fn validate_chunk_lua54(
    chunk: &[u8],
    limits: ResourceLimits,
    findings: &mut [Finding],
) -> Result<(Verdict, usize), Refusal>
    ensures { (result ≡ shown_findings (length findings.old) (format.read limits chunk.now))
        × (findings.new ≡ findings_written findings.old (format.read limits chunk.now)) }
{
    let plan = prepare(chunk, limits, findings.len())?;
    let mut p = plan.start;
    for k in 0..plan.count {
        let (finding, next) = next_finding(chunk, limits, p);
        findings[k] = finding;
        p = next;
    }
    Ok((plan.verdict, plan.count))
}

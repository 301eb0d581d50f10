// The findings of a chunk by value: a list that is long enough for all that there can be, filled by `validate_findings::validate_chunk_lua54`, for callers that have no list of their own.
ghost use Rattle.std.specs.Prelude.{◌≡◌};
ghost use Rattle.format.specs.ReadChunk as format;
ghost use Rattle.validate_plan.specs.Validated.{shown_findings, findings_written};
ghost use Rattle.validate_findings.specs.Blank.{LONGEST, blank_list};

use crate::validate_chunk_lua54;
use format::limits::ResourceLimits;
use format::refusal::Refusal;
use validate_rules::finding::{Finding, MAX_DIAGNOSTICS, Rule, Verdict};

// As many findings as there can be: the last instruction may add two.
const LONGEST: usize = MAX_DIAGNOSTICS as usize + 1;

#[derive(Drop)]
pub struct FindingArray {
    pub answer: Result<(Verdict, usize), Refusal>,
    pub list: [Finding; LONGEST],
}

// Records that mean nothing.
#[tactic(auto, unfolding(crate::specs::Blank::blank_list))]
fn blank() -> [Finding; LONGEST]
    ensures { result ≡ blank_list }
{
    [Finding {
        function: 0,
        pc: 0,
        rule: Rule::Register(0),
    }; LONGEST]
}

// The verdict, the number of findings and the findings, in the order found, in the first places.
// Ruled out: a list that is left blank, findings in another order.
pub fn chunk_findings(chunk: &[u8], limits: ResourceLimits) -> FindingArray
    ensures { (result.answer ≡ shown_findings LONGEST (format.read limits chunk.now))
        × (result.list ≡ findings_written blank_list (format.read limits chunk.now)) }
{
    let mut list = blank();
    let answer = validate_chunk_lua54(chunk, limits, &mut list);
    FindingArray { answer, list }
}

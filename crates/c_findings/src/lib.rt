// The findings of a chunk as numbers, four each, in a list that the caller lends: what crate `lafzimdo` exports as `lafzimdo_findings`.
#![tactic(auto)]

ghost use Rattle.std.specs.Prelude.{◌≡◌, ◌*◌, ◌/◌, ◌<◌, ◌≤◌, length, take};
ghost use Rattle.format.specs.Limits.{MOST};
ghost use Rattle.format.specs.ReadChunk.{read};
ghost use Rattle.slice.specs.Inner.Splice.{splice};
ghost use Rattle.validate_rules.specs.Findings.{MAX-DIAGNOSTICS};
ghost use Rattle.validate_search.specs.Inner.Position.{out_of};
ghost use Rattle.validate_plan.specs.Validated.{shown_findings};
ghost use Rattle.c_boundary.specs.Status.{limits_of, status, written};
ghost use Rattle.c_findings.specs.FindingNumbers.{list_numbers, of_findings, numbers_written};

use c_boundary::{limits_of, refused, two};
use c_finding::{put_finding, verdict_number};
use format::limits::ResourceLimits;
use validate_plan::{next_finding, prepare};
use validate_search::search::Position;

// The first `count` findings from a position on, at the front of the list.
fn write_findings(
    chunk: &[u8],
    limits: ResourceLimits,
    start: Position,
    count: usize,
    list: &mut [u64],
)
    requires { (4 * count ≤ length list.old) × (count ≤ length (out_of limits chunk.now MAX-DIAGNOSTICS start).findings) × (0 < count → limits.max_total_instructions ≤ MOST) }
    ensures { list.new ≡ splice 0 (list_numbers (take count (out_of limits chunk.now MAX-DIAGNOSTICS start).findings)) list.old }
{
    let mut p = start;
    for k in 0..count {
        let (finding, next) = next_finding(chunk, limits, p);
        put_finding(list, 4 * k, finding);
        p = next;
    }
}

// The verdict and the number of findings; every decision is taken before the first is written.
// Ruled out: success that writes nothing, a refusal that writes, findings in another order.
pub fn list_findings(chunk: &[u8], limits: &[u64; 9], list: &mut [u64], out: &mut [u64; 2]) -> u64
    ensures value { result ≡ status (of_findings (shown_findings (length list.old / 4) (read (limits_of limits.now) chunk.now))) }
    ensures out_after { out.new ≡ written (of_findings (shown_findings (length list.old / 4) (read (limits_of limits.now) chunk.now))) out.old }
    ensures list_after { list.new ≡ numbers_written list.old (read (limits_of limits.now) chunk.now) }
{
    let bounds = limits_of(limits);
    match prepare(chunk, bounds, list.len() / 4) {
        Err(q) => refused(q),
        Ok(plan) => {
            write_findings(chunk, bounds, plan.start, plan.count, list);
            *out = two(verdict_number(plan.verdict), plan.count as u64);
            0
        }
    }
}

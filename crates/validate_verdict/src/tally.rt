// The findings of a chunk, counted: how many there are, whether one is an error, and whether the search stopped.
ghost use Rattle.std.specs.Prelude.{◌≡◌, ◌||◌, ◌≤◌};
ghost use Rattle.format.specs.Limits.{MOST};
ghost use Rattle.validate_rules.specs.Rules as rules;
ghost use Rattle.validate_rules.specs.Findings as findings;
ghost use Rattle.validate_search.specs.Inner.Position.{out_of, start_position};
ghost use Rattle.validate_verdict.specs.Inner.Totals.{tallied, verdict_shown};

use format::limits::ResourceLimits;
use slice::cursor::Cursor;
use validate_rules::finding::{Rule, Severity, Verdict};
use validate_search::search::{Position, Step, advance, start};

#[derive(Clone, Copy)]
pub struct Totals {
    pub count: u64,
    pub errors: bool,
    pub stopped: bool,
}

// Whether a finding is an error or a warning. Ruled out: a register at the stack's size as an error.
pub fn severity(rule: Rule) -> Severity
    ensures { result ≡ rules.severity rule }
{
    match rule {
        Rule::Opcode(_) => Severity::Error,
        Rule::Register(_) => Severity::Warning,
        Rule::Constant(_) => Severity::Error,
        Rule::Upvalue(_) => Severity::Error,
        Rule::TableUpvalue(_) => Severity::Error,
        Rule::Prototype(_) => Severity::Error,
        Rule::Jump(_) => Severity::Error,
    }
}

// Whether there was an error, or the rule is one.
fn or_error(before: bool, rule: Rule) -> bool
    ensures { result ≡ before || findings.is_error (rules.severity rule) }
{
    before || matches!(severity(rule), Severity::Error)
}

// All findings, one after the other.
pub fn tally(s: &[u8], limits: ResourceLimits, max: u32, place: Cursor, kept: u64) -> Totals
    requires { limits.max_total_instructions ≤ MOST }
    ensures { result ≡ tallied (out_of limits s.now max (start_position place.at kept)) }
{
    let mut p = start(place, kept);
    let mut count = 0;
    let mut errors = false;
    loop {
        match advance(s, limits, max, p) {
            Step::Found(finding, next) => {
                errors = or_error(errors, finding.rule);
                p = next;
                count += 1;
            }
            Step::Done(stopped) => {
                return Totals {
                    count,
                    errors,
                    stopped,
                };
            }
        }
    }
}

// The verdict on findings of which these are the totals. Ruled out: incomplete where an error was found, incomplete at the first finding.
pub fn verdict_of(t: Totals) -> Verdict
    ensures { result ≡ verdict_shown t }
{
    if t.errors {
        return Verdict::Invalid;
    }
    if t.stopped {
        return Verdict::Incomplete;
    }
    Verdict::ValidForAnalysis
}

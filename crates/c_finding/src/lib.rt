// A verdict as a number; one finding as four numbers, stored into a list that is lent: what crate `c_findings` writes for each finding of a chunk.
#![tactic(auto)]

ghost use Rattle.std.specs.Prelude.{◌≡◌, ◌+◌, ◌≤◌, length};
ghost use Rattle.slice.specs.Inner.Splice.{splice};
ghost use Rattle.c_finding.specs.FindingNumbers.{verdict_number, rule_number, offending_number, finding_numbers};

use c_boundary::signed::complement_of;
use validate_rules::finding::{Finding, Rule, Verdict};

// The number of a verdict, for C.
pub fn verdict_number(v: Verdict) -> u64
    ensures { result ≡ verdict_number v }
{
    match v {
        Verdict::ValidForAnalysis => 0,
        Verdict::Invalid => 1,
        Verdict::Incomplete => 2,
    }
}

// Rules are numbered from 1, in the order of `Rule`.
fn rule_number(rule: Rule) -> u64
    ensures { result ≡ rule_number rule }
{
    match rule {
        Rule::Opcode(_) => 1,
        Rule::Register(_) => 2,
        Rule::Constant(_) => 3,
        Rule::Upvalue(_) => 4,
        Rule::TableUpvalue(_) => 5,
        Rule::Prototype(_) => 6,
        Rule::Jump(_) => 7,
    }
}

// The number that breaks it.
fn offending_number(rule: Rule) -> u64
    ensures { result ≡ offending_number rule }
{
    match rule {
        Rule::Opcode(n) => n as u64,
        Rule::Register(n) => n as u64,
        Rule::Constant(n) => n as u64,
        Rule::Upvalue(n) => n as u64,
        Rule::TableUpvalue(n) => n as u64,
        Rule::Prototype(n) => n as u64,
        Rule::Jump(z) => complement_of(z),
    }
}

// Stores the numbers of a finding from `at` on.
pub fn put_finding(list: &mut [u64], at: usize, finding: Finding)
    requires { at + 4 ≤ length list.old }
    ensures { list.new ≡ splice at (finding_numbers finding) list.old }
{
    let rule = finding.rule;
    list[at] = finding.function as u64;
    list[at + 1] = finding.pc as u64;
    list[at + 2] = rule_number(rule);
    list[at + 3] = offending_number(rule);
}

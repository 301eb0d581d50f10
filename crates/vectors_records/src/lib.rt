// The findings as records, in the list that `validate_findings::validate_chunk_lua54` fills: no call behind C, but
// the form that a caller in Rattle has.
#![tactic(auto)]

use c_boundary::signed::complement_of;
use c_boundary::{limits_of, refused};
use c_finding::verdict_number;
use text_list::Numbers;
use validate_findings::array::chunk_findings;
use validate_rules::finding::{Finding, MAX_DIAGNOSTICS, Rule, Severity, Verdict};
use validate_verdict::tally::severity;

// As many findings as there can be: the last instruction may add two.
const LONGEST: usize = MAX_DIAGNOSTICS as usize + 1;

type Records = [Finding; LONGEST];

// The verdict, the number of findings, and of each finding five numbers.
pub fn findings(chunk: &[u8], limits: &[u64; 9], got: &mut Numbers) -> usize {
    let found = chunk_findings(chunk, limits_of(limits));
    let answer = found.answer;
    let records = found.list;
    match answer {
        Err(q) => text_list::push(got, 0, refused(q)),
        Ok((verdict, count)) => {
            let at = totals(got, verdict, count);
            all_of(got, at, records, count)
        }
    }
}

fn totals(got: &mut Numbers, verdict: Verdict, count: usize) -> usize {
    let at = text_list::push(got, 0, 0);
    let at = text_list::push(got, at, verdict_number(verdict));
    text_list::push(got, at, count as u64)
}

fn all_of(got: &mut Numbers, at: usize, records: Records, count: usize) -> usize {
    let mut at = at;
    for finding in records.iter().take(count) {
        at = record(got, at, *finding);
    }
    at
}

fn record(got: &mut Numbers, at: usize, finding: Finding) -> usize {
    let rule = finding.rule;
    let at = text_list::push(got, at, finding.function as u64);
    let at = text_list::push(got, at, finding.pc as u64);
    let at = broken(got, at, rule);
    text_list::push(got, at, severity_number(severity(rule)))
}

// The rule's number, and the number that breaks it.
fn broken(got: &mut Numbers, at: usize, rule: Rule) -> usize {
    let at = text_list::push(got, at, rule_number(rule));
    text_list::push(got, at, breaking(rule))
}

fn rule_number(rule: Rule) -> u64 {
    match rule {
        Rule::Opcode(_) => 1,
        Rule::Register(_) => 2,
        Rule::Constant(_) => 3,
        Rule::Upvalue(_) => 4,
        Rule::TableUpvalue(_) => 5,
        Rule::Prototype(_) => 6,
        Rule::Jump(_) => 7,
    }
}

fn breaking(rule: Rule) -> u64 {
    match rule {
        Rule::Opcode(x) => x as u64,
        Rule::Register(x) => x as u64,
        Rule::Constant(x) => x as u64,
        Rule::Upvalue(x) => x as u64,
        Rule::TableUpvalue(x) => x as u64,
        Rule::Prototype(x) => x as u64,
        Rule::Jump(x) => complement_of(x),
    }
}

fn severity_number(s: Severity) -> u64 {
    match s {
        Severity::Error => 0,
        Severity::Warning => 1,
    }
}

// validator.rs, the loop's body in `validate_proto_lua54`: the findings of one instruction.
ghost use Rattle.std.specs.Prelude.{◌≡◌, ◌++◌};
ghost use Rattle.validate_rules.specs.Rules.{uses_registerA, check_of, operand_rule, register_rule, broken_rule, jump_rule, if_any, at, instruction};
ghost use Rattle.validate_rules.specs.Inner.Judged.{group_of, as_list, rule_of};

use crate::finding::{Bounds, Finding, Rule};
use word_fields::instruction::RawInstruction54;
use word_opcodes::opcode::Opcode54;

// What of an opcode's operands is held against a bound.
#[derive(Clone, Copy)]
enum Check {
    Nothing,
    Constant,
    Upvalue,
    TableUpvalueB,
    TableUpvalueA,
    Prototype,
    Jump,
}

// Whether A is a register.
fn uses_register_a(op: Opcode54) -> bool
    ensures { result ≡ uses_registerA op }
{
    match op {
        Opcode54::Settabup
        | Opcode54::Jmp
        | Opcode54::Return0
        | Opcode54::Varargprep
        | Opcode54::Extraarg => false,
        _ => true,
    }
}

// Which operand is checked. Ruled out: SETTABUP's B, LOADKX's Bx.
fn check_of(op: Opcode54) -> Check
    ensures { result ≡ check_of op }
{
    match op {
        Opcode54::Loadk => Check::Constant,
        Opcode54::Getupval | Opcode54::Setupval => Check::Upvalue,
        Opcode54::Gettabup => Check::TableUpvalueB,
        Opcode54::Settabup => Check::TableUpvalueA,
        Opcode54::Closure => Check::Prototype,
        Opcode54::Jmp => Check::Jump,
        _ => Check::Nothing,
    }
}

// The rule, where an index is at or above its bound.
fn broken(index: usize, bound: usize, rule: Rule) -> Option<Rule>
    ensures { rule_of result ≡ broken_rule index bound rule }
{
    if bound <= index {
        return Some(rule);
    }
    None
}

// The jump's target, where it is below 0 or not below the number of instructions. Ruled out: a jump to just behind the last one.
fn jump_rule(pc: u32, sj: i32, count: u32) -> Option<Rule>
    ensures { rule_of result ≡ jump_rule pc sj count }
{
    let next = pc as u64 + 1;
    let target = next as i64 + sj as i64;
    if target < 0 {
        return Some(Rule::Jump(target));
    }
    if count as u64 <= target as u64 {
        return Some(Rule::Jump(target));
    }
    None
}

// The rule that A breaks as a register.
fn register_rule(op: Opcode54, a: u8, maxstacksize: u8) -> Option<Rule>
    ensures { rule_of result ≡ register_rule op a maxstacksize }
{
    if uses_register_a(op) {
        return broken(a as usize, maxstacksize as usize, Rule::Register(a));
    }
    None
}

// The rule that an operand breaks. Ruled out: an index equal to the length of its list taken.
fn operand_rule(check: Check, raw: RawInstruction54, bounds: Bounds, pc: u32) -> Option<Rule>
    ensures { rule_of result ≡ operand_rule check raw bounds pc }
{
    match check {
        Check::Nothing => None,
        Check::Constant => broken(raw.bx as usize, bounds.constants, Rule::Constant(raw.bx)),
        Check::Upvalue => broken(raw.b as usize, bounds.upvalues, Rule::Upvalue(raw.b)),
        Check::TableUpvalueB => broken(raw.b as usize, bounds.upvalues, Rule::TableUpvalue(raw.b)),
        Check::TableUpvalueA => broken(raw.a as usize, bounds.upvalues, Rule::TableUpvalue(raw.a)),
        Check::Prototype => broken(raw.bx as usize, bounds.protos, Rule::Prototype(raw.bx)),
        Check::Jump => jump_rule(pc, raw.sj, bounds.instructions),
    }
}

// The findings of two rules that an instruction may break.
fn both(
    function: usize,
    pc: u32,
    first: Option<Rule>,
    second: Option<Rule>,
) -> Option<(Finding, Option<Finding>)>
    ensures { group_of result ≡ at function pc (if_any (rule_of first) ++ if_any (rule_of second)) }
{
    let later = found(function, pc, second);
    match found(function, pc, first) {
        Some(finding) => Some((finding, later)),
        None => Some((later?, None)),
    }
}

// The finding of a rule that an instruction may break.
fn found(function: usize, pc: u32, rule: Option<Rule>) -> Option<Finding>
    ensures { as_list result ≡ at function pc (if_any (rule_of rule)) }
{
    let rule = rule?;
    Some(Finding { function, pc, rule })
}

// The findings of one instruction: none, or one and, if there is one, a second.
// Ruled out: other checks of a word without an opcode, the operand's finding first.
#[tactic(auto, unfolding(crate::specs::Rules::instruction))]
pub fn judge(
    function: usize,
    bounds: Bounds,
    pc: u32,
    word: u32,
) -> Option<(Finding, Option<Finding>)>
    ensures { group_of result ≡ instruction function bounds pc word }
{
    let raw = RawInstruction54::decode(word);
    let Some(op) = raw.opcode else {
        let rule = Rule::Opcode(raw.opcode_num);
        return Some((Finding { function, pc, rule }, None));
    };
    let register = register_rule(op, raw.a, bounds.maxstacksize);
    let check = check_of(op);
    let operand = operand_rule(check, raw, bounds, pc);
    both(function, pc, register, operand)
}

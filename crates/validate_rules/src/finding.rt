// validator.rs: a finding, and the verdict on a chunk.

// So many diagnostics end the search for findings, the warnings of the reading among them.
pub const MAX_DIAGNOSTICS: u32 = 10000;

// The rule that an instruction breaks, with the number that breaks it: an opcode, a register, an index or a jump's target.
#[derive(Clone, Copy)]
pub enum Rule {
    Opcode(u8),
    Register(u8),
    Constant(u32),
    Upvalue(u8),
    TableUpvalue(u8),
    Prototype(u32),
    Jump(i64),
}

// The function's number, the instruction's number in it, and the rule.
#[derive(Clone, Copy)]
pub struct Finding {
    pub function: usize,
    pub pc: u32,
    pub rule: Rule,
}

#[derive(Clone, Copy)]
pub enum Severity {
    Error,
    Warning,
}

#[derive(Clone, Copy)]
pub enum Verdict {
    ValidForAnalysis,
    Invalid,
    Incomplete,
}

// What an instruction's fields are held against: the stack's size and the lengths of the function's lists.
#[derive(Clone, Copy)]
pub struct Bounds {
    pub maxstacksize: u8,
    pub instructions: u32,
    pub constants: usize,
    pub upvalues: usize,
    pub protos: usize,
}

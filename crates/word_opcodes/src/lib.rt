// Lua 5.4's opcodes, their numbers and their modes.
#![tactic(auto)]

pub mod opcode;

// Lua 5.4's instruction words: a word's fields, and the word of its fields.
#![tactic(auto)]

pub mod instruction;

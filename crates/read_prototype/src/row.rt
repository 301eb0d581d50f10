// A function as a walk over the file finds it: its fields, and where each of its lists begins.
use crate::front::{Lines, Sizes};
use read_field::string::StringAt;
use read_list::ListAt;

// The lists of a function, in the order of the file.
#[derive(Clone, Copy)]
pub struct Lists {
    pub instructions: ListAt,
    pub constants: ListAt,
    pub upvalues: ListAt,
    pub protos: ListAt,
    pub line_info: ListAt,
    pub abs_line_info: ListAt,
    pub loc_vars: ListAt,
    pub upvalue_names: ListAt,
}

#[derive(Clone, Copy)]
pub struct FunctionRow {
    pub start: usize,
    // Just behind its last byte.
    pub end: usize,
    pub depth: usize,
    // The parent's number; 0 for main.
    pub parent: usize,
    pub source_name: Option<StringAt>,
    pub lines: Lines,
    pub sizes: Sizes,
    pub lists: Lists,
}

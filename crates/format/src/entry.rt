// Entries of a function that are shown as they stand in the file.

// The Rust's `UpvalueDesc`: its name is an entry of its own list.
#[derive(Clone, Copy)]
pub struct UpvalueDesc {
    pub instack: u8,
    pub idx: u8,
    pub kind: u8,
}

// The Rust's `AbsLineInfo`, 01's anchor: the line of an instruction.
#[derive(Clone, Copy)]
pub struct AbsLineInfo {
    pub pc: usize,
    pub line: usize,
}

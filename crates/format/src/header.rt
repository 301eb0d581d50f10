// What a chunk's header shows, and the warnings of a reading.

// The Rust's `Header`, without its texts: `signature` and `luac_data` are the same in every file that is read.
#[derive(Clone, Copy)]
pub struct Header {
    pub version: u8,
    pub format: u8,
    pub instruction_size: u8,
    pub lua_integer_size: u8,
    // Not in the file.
    pub sizeof_sizet: u8,
    pub lua_number_size: u8,
    pub luac_int: i64,
    // The bits of 370.5.
    pub luac_num: u64,
}

// A warning of a reading, with its place.
#[derive(Clone, Copy)]
pub enum Warning {
    // L54-HEADER-003.
    NonStandardFormat(usize),
    // L54-CHUNK-001.
    TrailingBytes(usize),
}

// The code of the Rust's diagnostic.
#[derive(Clone, Copy)]
pub enum WarningCode {
    L54Header003,
    L54Chunk001,
}

// A warning's code and place.
#[derive(Clone, Copy)]
pub struct WarningReport {
    pub code: WarningCode,
    pub place: usize,
}

// The refusals: everything that a call can refuse, each with 01's number and, where it has one, its place in the file.

// Why a call refuses. A case that holds a number holds its place, the `byte_offset` of the Rust's diagnostic.
#[derive(Clone, Copy)]
pub enum Refusal {
    // CORE-TRUNC-001: the file is cut short.
    Truncated(usize),
    // CORE-OVERFLOW-001: a place plus a length is 2^64 or more.
    Overflow,
    // L54-VARINT-001: a number is 2^64 - 128 or more.
    VarintOverflow,
    // L54-HEADER-001.
    Signature(usize),
    // L54-HEADER-002.
    Version(usize),
    // L54-HEADER-004.
    LuacData(usize),
    // L54-HEADER-005.
    InstructionSize(usize),
    // L54-HEADER-006.
    LuaIntegerSize(usize),
    // L54-HEADER-007.
    LuaNumberSize(usize),
    // L54-HEADER-008.
    LuacInt(usize),
    // L54-HEADER-009.
    LuacNum(usize),
    // L54-CONST-002: a constant's tag is unknown.
    ConstantTag(usize),
    // L54-STR-001: a string is longer than max_string_bytes.
    StringBytes(usize),
    // L54-CODE-001: more instructions than max_instructions_per_proto.
    Instructions(usize),
    // CORE-LIMIT-004: more instructions so far than max_total_instructions.
    TotalInstructions(usize),
    // L54-CONST-001: more constants than max_constants_per_proto.
    Constants(usize),
    // L54-UPVAL-001: more upvalues than max_upvalues_per_proto.
    Upvalues(usize),
    // L54-PROTO-001: more nested functions in one function than max_total_prototypes.
    Prototypes(usize),
    // CORE-LIMIT-001: nested deeper than max_nesting_depth.
    NestingDepth(usize),
    // CORE-LIMIT-002: more nested functions so far than max_total_prototypes.
    TotalPrototypes(usize),
    // A limit is above its ceiling.
    LimitAboveCeiling,
    // The file is longer than max_input_bytes.
    InputBytes,
    // There is no function of that number.
    NoFunction,
    // There is no entry of that number.
    NoEntry,
    // A first line or an anchor's line is 2^62 or more, in line lookup.
    LineTooLarge,
    // Lent space is shorter than the result.
    LentSpace,
    // A field of an instruction word is out of range.
    FieldRange,
    // An opcode is above 82, in encoding.
    NoOpcode,
    // The anchors' pcs do not rise strictly, in the lines of a list of pcs.
    AnchorOrder,
    // A pc is below the one before it, in such a list.
    PcOrder,
    // The format byte is not 0, in the stricter reading.
    Format(usize),
    // A number that Lua's loader reads as an int is 2^31 - 128 or more, in the stricter reading.
    IntOverflow(usize),
    // A string constant is absent, in the stricter reading.
    NullString(usize),
}

// A refusal's number and place.
#[derive(Clone, Copy)]
pub struct Report {
    pub number: u8,
    pub place: Option<usize>,
}

// Every call on chunks and words, with its types, under one name: for callers in Rattle. Each stands, with its contract, in the crate behind it.
#![tactic(auto)]

// Limits; refusals and warnings, with number and place.
pub use format::header::{Header, Warning, WarningCode, WarningReport};
pub use format::limits::ResourceLimits;
pub use format::refusal::{Refusal, Report};
pub use format_report::{report_refusal, report_warning};

// The summary of a chunk, and of one that Lua's own loader takes; its bytes.
pub use read_chunk::summary::{Summary, Warnings};
pub use read_field::string::StringAt;
pub use show_chunk::bytes::{string_bytes, trailing_bytes};
pub use show_chunk::summary::{ChunkSummary, chunk_summary};
pub use strict::strict_summary;

// A function's fields and entries, by number; the index of all.
pub use format::entry::{AbsLineInfo, UpvalueDesc};
pub use index::function_index;
pub use line_batch::list::get_lines_for_pcs;
pub use line_lookup::line::get_line_for_pc;
pub use read_entry::constant::ConstantValue;
pub use show_chunk::fields::{Counts, FunctionFields, function_fields};
pub use show_entry::{anchor, constant, delta, instruction, upvalue, upvalue_name};
pub use show_local::{LocalShown, local};

// The archive copy; the full copy.
pub use copy::{copy_length, encode_chunk_lua54};
pub use copy_full::{full_copy, full_copy_length};

// Validation.
pub use validate_findings::array::{FindingArray, chunk_findings};
pub use validate_findings::validate_chunk_lua54;
pub use validate_rules::finding::{Finding, Rule, Severity, Verdict};
pub use validate_verdict::tally::severity;
pub use validate_verdict::verdict::{chunk_verdict, finding_count};

// Instruction words.
pub use word_fields::instruction::RawInstruction54;
pub use word_opcodes::opcode::{OpMode54, Opcode54};

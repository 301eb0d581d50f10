// Entries of a function.
ghost use Rattle.std.specs.Prelude.{◌≡◌};
ghost use Rattle.format.specs.ReadChunk.{read};
ghost use Rattle.show_row.specs.Asked.{entry_of};
ghost use Rattle.show_entry.specs.Entries.{shown_word, shown_constant, shown_upvalue, shown_delta, shown_anchor, shown_name};
ghost use Rattle.c_boundary.specs.Status.{limits_of, status, written, in_numbers};
ghost use Rattle.lafzimdo.specs.Answers.{ofWord, ofConstant, ofUpvalue, ofDelta, ofAnchor, ofName};

use c_boundary::signed::complement_of_i8;
use c_boundary::{answered, limits_of};
use c_entries::entry::{anchor_numbers, constant_numbers, upvalue_numbers};
use c_entries::strings::string_numbers;
use format::refusal::Refusal;
use show_entry::{anchor, constant, delta, instruction, upvalue, upvalue_name};

fn instruction_in_numbers(
    chunk: &[u8],
    limits: &[u64; 9],
    function: usize,
    entry: usize,
) -> Result<[u64; 1], Refusal>
    ensures { in_numbers result ≡ ofWord (shown_word (entry_of (λ p. p.instructions) function entry (read (limits_of limits.now) chunk.now))) }
{
    let word = instruction(chunk, limits_of(limits), function, entry)?;
    Ok([word as u64])
}

// An instruction word of a function, by their numbers. Ruled out: a word of another function, 24 before 23.
#[unsafe(no_mangle)]
pub extern "C" fn lafzimdo_instruction(
    chunk: &[u8],
    limits: &[u64; 9],
    function: usize,
    entry: usize,
    out: &mut [u64; 1],
) -> u64
    ensures value { result ≡ status (ofWord (shown_word (entry_of (λ p. p.instructions) function entry (read (limits_of limits.now) chunk.now)))) }
    ensures out_after { out.new ≡ written (ofWord (shown_word (entry_of (λ p. p.instructions) function entry (read (limits_of limits.now) chunk.now)))) out.old }
{
    answered(instruction_in_numbers(chunk, limits, function, entry), out)
}

fn constant_in_numbers(
    chunk: &[u8],
    limits: &[u64; 9],
    function: usize,
    entry: usize,
) -> Result<[u64; 3], Refusal>
    ensures { in_numbers result ≡ ofConstant (shown_constant (entry_of (λ p. p.constants) function entry (read (limits_of limits.now) chunk.now))) }
{
    let k = constant(chunk, limits_of(limits), function, entry)?;
    Ok(constant_numbers(k))
}

// A constant of a function, by their numbers: its tag and its value, or where its string stands.
// Ruled out: true shown as false, a string's place at its size, an integer without its sign.
#[unsafe(no_mangle)]
pub extern "C" fn lafzimdo_constant(
    chunk: &[u8],
    limits: &[u64; 9],
    function: usize,
    entry: usize,
    out: &mut [u64; 3],
) -> u64
    ensures value { result ≡ status (ofConstant (shown_constant (entry_of (λ p. p.constants) function entry (read (limits_of limits.now) chunk.now)))) }
    ensures out_after { out.new ≡ written (ofConstant (shown_constant (entry_of (λ p. p.constants) function entry (read (limits_of limits.now) chunk.now)))) out.old }
{
    answered(constant_in_numbers(chunk, limits, function, entry), out)
}

fn upvalue_in_numbers(
    chunk: &[u8],
    limits: &[u64; 9],
    function: usize,
    entry: usize,
) -> Result<[u64; 3], Refusal>
    ensures { in_numbers result ≡ ofUpvalue (shown_upvalue (entry_of (λ p. p.upvalues) function entry (read (limits_of limits.now) chunk.now))) }
{
    let y = upvalue(chunk, limits_of(limits), function, entry)?;
    Ok(upvalue_numbers(y))
}

// An upvalue of a function, by their numbers: its three bytes. Ruled out: its three bytes in another order, an array that is touched where the answer is a refusal.
#[unsafe(no_mangle)]
pub extern "C" fn lafzimdo_upvalue(
    chunk: &[u8],
    limits: &[u64; 9],
    function: usize,
    entry: usize,
    out: &mut [u64; 3],
) -> u64
    ensures value { result ≡ status (ofUpvalue (shown_upvalue (entry_of (λ p. p.upvalues) function entry (read (limits_of limits.now) chunk.now)))) }
    ensures out_after { out.new ≡ written (ofUpvalue (shown_upvalue (entry_of (λ p. p.upvalues) function entry (read (limits_of limits.now) chunk.now)))) out.old }
{
    answered(upvalue_in_numbers(chunk, limits, function, entry), out)
}

fn delta_in_numbers(
    chunk: &[u8],
    limits: &[u64; 9],
    function: usize,
    entry: usize,
) -> Result<[u64; 1], Refusal>
    ensures { in_numbers result ≡ ofDelta (shown_delta (entry_of (λ p. p.line_info_lem) function entry (read (limits_of limits.now) chunk.now))) }
{
    let z = delta(chunk, limits_of(limits), function, entry)?;
    Ok([complement_of_i8(z)])
}

// A line delta of a function, by their numbers. Ruled out: a byte from 128 up shown as it stands, its eight bits not filled up to 64.
#[unsafe(no_mangle)]
pub extern "C" fn lafzimdo_delta(
    chunk: &[u8],
    limits: &[u64; 9],
    function: usize,
    entry: usize,
    out: &mut [u64; 1],
) -> u64
    ensures value { result ≡ status (ofDelta (shown_delta (entry_of (λ p. p.line_info_lem) function entry (read (limits_of limits.now) chunk.now)))) }
    ensures out_after { out.new ≡ written (ofDelta (shown_delta (entry_of (λ p. p.line_info_lem) function entry (read (limits_of limits.now) chunk.now)))) out.old }
{
    answered(delta_in_numbers(chunk, limits, function, entry), out)
}

fn anchor_in_numbers(
    chunk: &[u8],
    limits: &[u64; 9],
    function: usize,
    entry: usize,
) -> Result<[u64; 2], Refusal>
    ensures { in_numbers result ≡ ofAnchor (shown_anchor (entry_of (λ p. p.abs_line_info) function entry (read (limits_of limits.now) chunk.now))) }
{
    let y = anchor(chunk, limits_of(limits), function, entry)?;
    Ok(anchor_numbers(y))
}

// An anchor of a function, by their numbers: its pc and its line. Ruled out: pc and line exchanged, the first anchor always.
#[unsafe(no_mangle)]
pub extern "C" fn lafzimdo_anchor(
    chunk: &[u8],
    limits: &[u64; 9],
    function: usize,
    entry: usize,
    out: &mut [u64; 2],
) -> u64
    ensures value { result ≡ status (ofAnchor (shown_anchor (entry_of (λ p. p.abs_line_info) function entry (read (limits_of limits.now) chunk.now)))) }
    ensures out_after { out.new ≡ written (ofAnchor (shown_anchor (entry_of (λ p. p.abs_line_info) function entry (read (limits_of limits.now) chunk.now)))) out.old }
{
    answered(anchor_in_numbers(chunk, limits, function, entry), out)
}

fn upvalue_name_in_numbers(
    chunk: &[u8],
    limits: &[u64; 9],
    function: usize,
    entry: usize,
) -> Result<[u64; 3], Refusal>
    ensures { in_numbers result ≡ ofName (shown_name (entry_of (λ p. p.upvalue_names_lem) function entry (read (limits_of limits.now) chunk.now))) }
{
    let y = upvalue_name(chunk, limits_of(limits), function, entry)?;
    Ok(string_numbers(y))
}

// The name of an upvalue of a function, by their numbers: whether there is one, and where it stands.
// Ruled out: an absent name shown as an empty one, a place before its size.
#[unsafe(no_mangle)]
pub extern "C" fn lafzimdo_upvalue_name(
    chunk: &[u8],
    limits: &[u64; 9],
    function: usize,
    entry: usize,
    out: &mut [u64; 3],
) -> u64
    ensures value { result ≡ status (ofName (shown_name (entry_of (λ p. p.upvalue_names_lem) function entry (read (limits_of limits.now) chunk.now)))) }
    ensures out_after { out.new ≡ written (ofName (shown_name (entry_of (λ p. p.upvalue_names_lem) function entry (read (limits_of limits.now) chunk.now)))) out.old }
{
    answered(upvalue_name_in_numbers(chunk, limits, function, entry), out)
}

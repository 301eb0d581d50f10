// Lists behind their counts, passed over: as crates/read_list does, by the stricter grammar. A count is an int, and that is tested before its limit.
ghost use Rattle.std.specs.Prelude.{◌≡◌, drop};
ghost use Rattle.format.specs.declared.refusal.Refusal.TheVariants.{Constants, Upvalues};
ghost use Rattle.format.specs.ReadFields.{string};
ghost use Rattle.format.specs.ReadChunk.{upvalue};
ghost use Rattle.format_strict.specs.ReadStrict as strict;
ghost use Rattle.slice.specs.Inner.Results.{cursor_result};
ghost use Rattle.read_field.specs.Shown.{shown};
ghost use Rattle.strict_walk.specs.Inner.StrictParts.{int_up_to, strict_code_count, strict_code, strict_line_info};
ghost use Rattle.strict_walk.specs.Inner.Results.{length_result};

use format::refusal::Refusal;
use read_entry::runs::{skip_upvalues, skip_words};
use slice::cursor::{Cursor, read_exact};
use strict_entry::int::read_int;
use strict_entry::pass::{pass_anchors, pass_constants, pass_locals, pass_strings};

// An int that is at most the limit, or the refusal. Ruled out: the limit tested before the int, a count of the limit refused.
pub fn int_up_to(
    s: &[u8],
    cursor: Cursor,
    limit: usize,
    refusal: Refusal,
) -> Result<(u64, Cursor), Refusal>
    ensures { result ≡ shown (int_up_to limit refusal cursor.at (drop cursor.at s.now)) }
{
    let (value, next) = read_int(s, cursor)?;
    if limit < value as usize {
        return Err(refusal);
    }
    Ok((value, next))
}

// How many instructions: at most so many in a function, and with those of the functions before at most so many in all. Ruled out: the total not tested.
fn instruction_count(
    s: &[u8],
    cursor: Cursor,
    max_instructions_per_proto: usize,
    instructions_before: usize,
    max_total_instructions: usize,
) -> Result<(u64, Cursor), Refusal>
    ensures { result ≡ shown (strict_code_count max_instructions_per_proto instructions_before max_total_instructions cursor.at (drop cursor.at s.now)) }
{
    let first = cursor.at;
    let refusal = Refusal::Instructions(first);
    let (value, next) = int_up_to(s, cursor, max_instructions_per_proto, refusal)?;
    if max_total_instructions < instructions_before {
        return Err(Refusal::TotalInstructions(first));
    }
    if max_total_instructions - instructions_before < value as usize {
        return Err(Refusal::TotalInstructions(first));
    }
    Ok((value, next))
}

// The instructions of a function, and how many there are.
pub fn pass_code(
    s: &[u8],
    cursor: Cursor,
    max_instructions_per_proto: usize,
    instructions_before: usize,
    max_total_instructions: usize,
) -> Result<(u64, Cursor), Refusal>
    ensures { result ≡ length_result (strict_code max_instructions_per_proto instructions_before max_total_instructions cursor.at (drop cursor.at s.now)) }
{
    let (value, next) = instruction_count(
        s,
        cursor,
        max_instructions_per_proto,
        instructions_before,
        max_total_instructions,
    )?;
    let behind = skip_words(s, next, value as usize)?;
    Ok((value, behind))
}

// The constants of a function. Ruled out: cut short reported before the limit.
pub fn pass_constants_list(
    s: &[u8],
    cursor: Cursor,
    max_constants: usize,
    max_string_bytes: usize,
) -> Result<Cursor, Refusal>
    ensures { result ≡ cursor_result (strict.strict_counted_up_to max_constants Constants (strict.strict_constant max_string_bytes) cursor.at (drop cursor.at s.now)) }
{
    let (value, next) = int_up_to(s, cursor, max_constants, Refusal::Constants(cursor.at))?;
    pass_constants(s, next, value as usize, max_string_bytes)
}

// The upvalues of a function.
pub fn pass_upvalues_list(s: &[u8], cursor: Cursor, max_upvalues: usize) -> Result<Cursor, Refusal>
    ensures { result ≡ cursor_result (strict.strict_counted_up_to max_upvalues Upvalues upvalue cursor.at (drop cursor.at s.now)) }
{
    let (value, next) = int_up_to(s, cursor, max_upvalues, Refusal::Upvalues(cursor.at))?;
    skip_upvalues(s, next, value as usize)
}

// The line deltas of a function.
pub fn pass_line_info_list(s: &[u8], cursor: Cursor) -> Result<Cursor, Refusal>
    ensures { result ≡ cursor_result (strict_line_info cursor.at (drop cursor.at s.now)) }
{
    let (value, next) = read_int(s, cursor)?;
    read_exact(s, next, value as usize)
}

// The anchors of a function.
pub fn pass_anchors_list(s: &[u8], cursor: Cursor) -> Result<Cursor, Refusal>
    ensures { result ≡ cursor_result (strict.strict_counted strict.strict_anchor cursor.at (drop cursor.at s.now)) }
{
    let (value, next) = read_int(s, cursor)?;
    pass_anchors(s, next, value as usize)
}

// The local variables of a function.
pub fn pass_locals_list(
    s: &[u8],
    cursor: Cursor,
    max_string_bytes: usize,
) -> Result<Cursor, Refusal>
    ensures { result ≡ cursor_result (strict.strict_counted (strict.strict_local max_string_bytes) cursor.at (drop cursor.at s.now)) }
{
    let (value, next) = read_int(s, cursor)?;
    pass_locals(s, next, value as usize, max_string_bytes)
}

// The upvalue names of a function. Ruled out: more names than upvalues refused.
pub fn pass_names_list(s: &[u8], cursor: Cursor, max_string_bytes: usize) -> Result<Cursor, Refusal>
    ensures { result ≡ cursor_result (strict.strict_counted (string max_string_bytes) cursor.at (drop cursor.at s.now)) }
{
    let (value, next) = read_int(s, cursor)?;
    pass_strings(s, next, value as usize, max_string_bytes)
}

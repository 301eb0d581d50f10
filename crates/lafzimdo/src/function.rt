// A function's fields, and the line of an instruction.
ghost use Rattle.std.specs.Prelude.{◌≡◌};
ghost use Rattle.format.specs.ReadChunk.{read};
ghost use Rattle.show_row.specs.Asked.{function_of};
ghost use Rattle.show_chunk.specs.Fields.{shown_fields};
ghost use Rattle.line_lookup.specs.Lines.{shown_line};
ghost use Rattle.c_boundary.specs.Status.{limits_of, status, written, in_numbers};
ghost use Rattle.lafzimdo.specs.Answers.{of_fields, ofLine};

use c_boundary::{answered, limits_of};
use c_numbers::fields::fields_numbers;
use format::refusal::Refusal;
use line_lookup::line::get_line_for_pc;
use show_chunk::fields::function_fields;

fn function_in_numbers(
    chunk: &[u8],
    limits: &[u64; 9],
    function: usize,
) -> Result<[u64; 18], Refusal>
    ensures { in_numbers result ≡ of_fields (shown_fields (function_of function (read (limits_of limits.now) chunk.now))) }
{
    let y = function_fields(chunk, limits_of(limits), function)?;
    Ok(fields_numbers(y))
}

// The fields of a function by its number, and how many entries each of its lists has.
// Ruled out: nested functions that all show main's fields, an array that is touched where the answer is a refusal.
#[unsafe(no_mangle)]
pub extern "C" fn lafzimdo_function(
    chunk: &[u8],
    limits: &[u64; 9],
    function: usize,
    out: &mut [u64; 18],
) -> u64
    ensures value { result ≡ status (of_fields (shown_fields (function_of function (read (limits_of limits.now) chunk.now)))) }
    ensures out_after { out.new ≡ written (of_fields (shown_fields (function_of function (read (limits_of limits.now) chunk.now)))) out.old }
{
    answered(function_in_numbers(chunk, limits, function), out)
}

fn line_in_numbers(
    chunk: &[u8],
    limits: &[u64; 9],
    function: usize,
    pc: usize,
) -> Result<[u64; 1], Refusal>
    ensures { in_numbers result ≡ ofLine (shown_line pc (function_of function (read (limits_of limits.now) chunk.now))) }
{
    let line = get_line_for_pc(chunk, limits_of(limits), function, pc)?;
    Ok([line as u64])
}

// The source line of an instruction of a function. Ruled out: lines always 0, the delta at the anchor skipped.
#[unsafe(no_mangle)]
pub extern "C" fn lafzimdo_line(
    chunk: &[u8],
    limits: &[u64; 9],
    function: usize,
    pc: usize,
    out: &mut [u64; 1],
) -> u64
    ensures value { result ≡ status (ofLine (shown_line pc (function_of function (read (limits_of limits.now) chunk.now)))) }
    ensures out_after { out.new ≡ written (ofLine (shown_line pc (function_of function (read (limits_of limits.now) chunk.now)))) out.old }
{
    answered(line_in_numbers(chunk, limits, function, pc), out)
}

// A function's fields, and the line of an instruction.
ghost use Rattle.std.specs.Prelude.{◌≡◌};
ghost use Rattle.format.specs.ReadChunk.{read};
ghost use Rattle.show_row.specs.Asked.{function_of};
ghost use Rattle.show_chunk.specs.Fields.{shown_fields};
ghost use Rattle.line_lookup.specs.Lines.{shown_line};
ghost use Rattle.c_boundary.specs.Status.{limits_of, status, written};
ghost use Rattle.lafzimdo.specs.Answers.{of_fields, ofLine};

// The fields of a function by its number, and how many entries each of its lists has.
#[unsafe(no_mangle)]
pub extern "C" fn lafzimdo_function(
    chunk: &[u8],
    limits: &[u64; 9],
    function: usize,
    out: &mut [u64; 18],
) -> u64
    ensures value { result ≡ status (of_fields (shown_fields (function_of function (read (limits_of limits.now) chunk.now)))) }
    ensures out_after { out.new ≡ written (of_fields (shown_fields (function_of function (read (limits_of limits.now) chunk.now)))) out.old }
{
    lafzimdo::function::lafzimdo_function(chunk, limits, function, out)
}

// The source line of an instruction of a function.
#[unsafe(no_mangle)]
pub extern "C" fn lafzimdo_line(
    chunk: &[u8],
    limits: &[u64; 9],
    function: usize,
    pc: usize,
    out: &mut [u64; 1],
) -> u64
    ensures value { result ≡ status (ofLine (shown_line pc (function_of function (read (limits_of limits.now) chunk.now)))) }
    ensures out_after { out.new ≡ written (ofLine (shown_line pc (function_of function (read (limits_of limits.now) chunk.now)))) out.old }
{
    lafzimdo::function::lafzimdo_line(chunk, limits, function, pc, out)
}

// A function's fields.
ghost use Rattle.std.specs.Prelude.{◌≡◌};
ghost use Rattle.c_numbers.specs.Numbers.{fields_numbers};

use c_entries::strings::{length_number, place_number, present_number};
use show_chunk::fields::FunctionFields;

// The numbers of a function's fields, for C.
pub fn fields_numbers(y: FunctionFields) -> [u64; 18]
    ensures { result ≡ fields_numbers y }
{
    let source = y.source_name;
    let counts = y.counts;
    [
        y.depth as u64,
        y.parent as u64,
        present_number(source),
        place_number(source),
        length_number(source),
        y.line_defined as u64,
        y.last_line_defined as u64,
        y.numparams as u64,
        y.is_vararg as u64,
        y.maxstacksize as u64,
        counts.instructions as u64,
        counts.constants as u64,
        counts.upvalues as u64,
        counts.protos as u64,
        counts.line_info as u64,
        counts.abs_line_info as u64,
        counts.loc_vars as u64,
        counts.upvalue_names as u64,
    ]
}

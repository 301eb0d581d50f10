// A chunk's summary.
ghost use Rattle.std.specs.Prelude.{◌≡◌};
ghost use Rattle.c_numbers.specs.Numbers.{warning_code, warning_place, summary_numbers};

use format::header::Warning;
use show_chunk::summary::ChunkSummary;

fn warning_code(w: Option<Warning>) -> u64
    ensures { result ≡ warning_code w }
{
    match w {
        None => 0,
        Some(warning) => match warning {
            Warning::NonStandardFormat(_) => 1,
            Warning::TrailingBytes(_) => 2,
        },
    }
}

fn warning_place(w: Option<Warning>) -> u64
    ensures { result ≡ warning_place w }
{
    match w {
        None => 0,
        Some(warning) => match warning {
            Warning::NonStandardFormat(place) => place as u64,
            Warning::TrailingBytes(place) => place as u64,
        },
    }
}

// The numbers of a summary, for C. Ruled out: the number of functions for that of padded numbers.
pub fn summary_numbers(shown: ChunkSummary) -> [u64; 15]
    ensures { result ≡ summary_numbers shown }
{
    let y = shown.summary;
    let header = y.header;
    let warnings = y.warnings;
    let first = warnings.first;
    let second = warnings.second;
    [
        header.version as u64,
        header.format as u64,
        header.instruction_size as u64,
        header.lua_integer_size as u64,
        header.sizeof_sizet as u64,
        header.lua_number_size as u64,
        header.luac_num,
        y.functions as u64,
        y.trailing_at as u64,
        y.trailing_len as u64,
        warning_code(first),
        warning_place(first),
        warning_code(second),
        warning_place(second),
        shown.padded_numbers as u64,
    ]
}

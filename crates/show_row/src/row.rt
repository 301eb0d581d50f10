// A function by its number, as the walk finds it.
ghost use Rattle.std.specs.Prelude.{◌≡◌};
ghost use Rattle.format.specs.ReadChunk.{read};
ghost use Rattle.show_row.specs.Asked.{function_of};
ghost use Rattle.show_row.specs.Inner.Places.{shown_row_answer};

use format::limits::ResourceLimits;
use format::refusal::Refusal;
use read_chunk::summary::decode_chunk_lua54;
use read_prototype::row::FunctionRow;

// The row of a function by its number: its fields, and where each of its lists begins; 23 where there is no such function.
// Ruled out: main's row for every number, 23 before a refusal of the chunk.
pub fn function_row(
    s: &[u8],
    limits: ResourceLimits,
    function: usize,
) -> Result<FunctionRow, Refusal>
    ensures { result ≡ shown_row_answer (function_of function (read limits s.now)) }
{
    let chunk = decode_chunk_lua54(s, limits, function)?;
    chunk.row.ok_or(Refusal::NoFunction)
}

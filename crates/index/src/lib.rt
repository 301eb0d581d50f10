// The index: a row of numbers for each function of a chunk, written into lent space.
#![tactic(auto)]

ghost use Rattle.std.specs.Prelude.{◌≡◌, length};
ghost use Rattle.format.specs.ReadChunk as format;
ghost use Rattle.index.specs.Index.{shown_index, index_written};

use format::limits::ResourceLimits;
use format::refusal::Refusal;
use index_row::COLUMNS;
use index_walk::write_function;
use read_chunk::MAIN_AT;
use read_chunk::summary::judge_chunk;
use read_walk::walk::Skimmed;
use slice::cursor::Cursor;

// Writes the index of a chunk at the start of `rows`: for each function, in the order their bytes begin, start, end, depth, parent, eight counts, and the places of its first instruction word and
// of its first constant (with none, just after their count). The first pass judges, the second writes. Ruled out: a count or a place that is another list's, rows touched where the answer is a refusal.
pub fn function_index(s: &[u8], limits: ResourceLimits, rows: &mut [u32]) -> Result<usize, Refusal>
    ensures value { result ≡ shown_index (length rows.old) (format.read limits s.now) }
    ensures rows_after { rows.new ≡ index_written rows.old (format.read limits s.now) }
{
    let summary = judge_chunk(s, limits)?;
    let functions = summary.functions;
    if rows.len() / COLUMNS < functions {
        return Err(Refusal::LentSpace);
    }
    let main = Skimmed {
        next: Cursor { at: MAIN_AT },
        number: 0,
        instructions: 0,
    };
    let mut unused = [0usize; 4];
    // The first pass judged the chunk, so this one refuses nothing.
    write_function(
        s,
        limits,
        limits.max_nesting_depth,
        0,
        0,
        main,
        rows,
        &mut unused,
    )?;
    Ok(functions)
}

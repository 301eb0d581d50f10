// What is written into memory that the caller lends beside the array: the index, the copy, a local variable's name, the lines of a list of pcs.
ghost use Rattle.std.specs.Prelude.{◌≡◌, length};
ghost use Rattle.format.specs.ReadChunk.{read};
ghost use Rattle.show_row.specs.Asked.{function_of, entry_of};
ghost use Rattle.copy.specs.Copied.{shown_copy, copy_written};
ghost use Rattle.index.specs.Index.{shown_index, index_written};
ghost use Rattle.show_local.specs.Locals.{shown_local, name_written};
ghost use Rattle.line_batch.specs.Batch.{shown_lines, lines_written};
ghost use Rattle.c_boundary.specs.Status.{limits_of, status, written, in_numbers};
ghost use Rattle.lafzimdo.specs.Answers.{ofIndex, ofCopy, of_local, ofLines};

use c_boundary::{answered, limits_of};
use c_entries::entry::local_numbers;
use copy::encode_chunk_lua54;
use format::refusal::Refusal;
use index::function_index;
use line_batch::list::get_lines_for_pcs;
use show_local::local;

fn index_in_numbers(chunk: &[u8], limits: &[u64; 9], rows: &mut [u32]) -> Result<[u64; 1], Refusal>
    ensures value { in_numbers result ≡ ofIndex (shown_index (length rows.old) (read (limits_of limits.now) chunk.now)) }
    ensures rows_after { rows.new ≡ index_written rows.old (read (limits_of limits.now) chunk.now) }
{
    let n = function_index(chunk, limits_of(limits), rows)?;
    Ok([n as u64])
}

// The index of a chunk: how many functions it has, and their rows in the lent memory.
// Ruled out: the number of numbers in place of the number of functions, rows touched where they have no room.
#[unsafe(no_mangle)]
pub extern "C" fn lafzimdo_index(
    chunk: &[u8],
    limits: &[u64; 9],
    rows: &mut [u32],
    out: &mut [u64; 1],
) -> u64
    ensures value { result ≡ status (ofIndex (shown_index (length rows.old) (read (limits_of limits.now) chunk.now))) }
    ensures out_after { out.new ≡ written (ofIndex (shown_index (length rows.old) (read (limits_of limits.now) chunk.now))) out.old }
    ensures rows_after { rows.new ≡ index_written rows.old (read (limits_of limits.now) chunk.now) }
{
    answered(index_in_numbers(chunk, limits, rows), out)
}

fn copy_in_numbers(chunk: &[u8], limits: &[u64; 9], copy: &mut [u8]) -> Result<[u64; 1], Refusal>
    ensures value { in_numbers result ≡ ofCopy (shown_copy (length copy.old) (read (limits_of limits.now) chunk.now)) }
    ensures copy_after { copy.new ≡ copy_written copy.old (read (limits_of limits.now) chunk.now) }
{
    let n = encode_chunk_lua54(chunk, limits_of(limits), copy)?;
    Ok([n as u64])
}

// The archive copy of a chunk: its length, and its bytes in the lent memory. Ruled out: the chunk handed back, a copy that is cut to the lent memory.
#[unsafe(no_mangle)]
pub extern "C" fn lafzimdo_copy(
    chunk: &[u8],
    limits: &[u64; 9],
    copy: &mut [u8],
    out: &mut [u64; 1],
) -> u64
    ensures value { result ≡ status (ofCopy (shown_copy (length copy.old) (read (limits_of limits.now) chunk.now))) }
    ensures out_after { out.new ≡ written (ofCopy (shown_copy (length copy.old) (read (limits_of limits.now) chunk.now))) out.old }
    ensures copy_after { copy.new ≡ copy_written copy.old (read (limits_of limits.now) chunk.now) }
{
    answered(copy_in_numbers(chunk, limits, copy), out)
}

fn local_in_numbers(
    chunk: &[u8],
    limits: &[u64; 9],
    function: usize,
    entry: usize,
    name: &mut [u8],
) -> Result<[u64; 3], Refusal>
    ensures value { in_numbers result ≡ of_local (shown_local (length name.old) (entry_of (λ p. p.loc_vars) function entry (read (limits_of limits.now) chunk.now))) }
    ensures name_after { name.new ≡ name_written name.old (entry_of (λ p. p.loc_vars) function entry (read (limits_of limits.now) chunk.now)) }
{
    let shown = local(chunk, limits_of(limits), function, entry, name)?;
    Ok(local_numbers(shown.name_len, shown.startpc, shown.endpc))
}

// A local variable of a function, by their numbers: where it is live, and its name in the lent memory.
// Ruled out: startpc and endpc exchanged, the length of what is lent in place of the name's.
#[unsafe(no_mangle)]
pub extern "C" fn lafzimdo_local(
    chunk: &[u8],
    limits: &[u64; 9],
    function: usize,
    entry: usize,
    name: &mut [u8],
    out: &mut [u64; 3],
) -> u64
    ensures value { result ≡ status (of_local (shown_local (length name.old) (entry_of (λ p. p.loc_vars) function entry (read (limits_of limits.now) chunk.now)))) }
    ensures out_after { out.new ≡ written (of_local (shown_local (length name.old) (entry_of (λ p. p.loc_vars) function entry (read (limits_of limits.now) chunk.now)))) out.old }
    ensures name_after { name.new ≡ name_written name.old (entry_of (λ p. p.loc_vars) function entry (read (limits_of limits.now) chunk.now)) }
{
    answered(local_in_numbers(chunk, limits, function, entry, name), out)
}

fn lines_in_numbers(
    chunk: &[u8],
    limits: &[u64; 9],
    function: usize,
    pcs: &[u64],
    lines: &mut [u64],
) -> Result<[u64; 1], Refusal>
    ensures value { in_numbers result ≡ ofLines (shown_lines (length lines.old) pcs.now (function_of function (read (limits_of limits.now) chunk.now))) }
    ensures lines_after { lines.new ≡ lines_written lines.old pcs.now (function_of function (read (limits_of limits.now) chunk.now)) }
{
    let n = get_lines_for_pcs(chunk, limits_of(limits), function, pcs, lines)?;
    Ok([n as u64])
}

// The lines of the instructions `pcs` of a function, which never fall: how many of its deltas were read, and the lines in the lent memory.
// Ruled out: the number of lines in place of the number of deltas, a list of pcs that falls.
#[unsafe(no_mangle)]
pub extern "C" fn lafzimdo_lines(
    chunk: &[u8],
    limits: &[u64; 9],
    function: usize,
    pcs: &[u64],
    lines: &mut [u64],
    out: &mut [u64; 1],
) -> u64
    ensures value { result ≡ status (ofLines (shown_lines (length lines.old) pcs.now (function_of function (read (limits_of limits.now) chunk.now)))) }
    ensures out_after { out.new ≡ written (ofLines (shown_lines (length lines.old) pcs.now (function_of function (read (limits_of limits.now) chunk.now)))) out.old }
    ensures lines_after { lines.new ≡ lines_written lines.old pcs.now (function_of function (read (limits_of limits.now) chunk.now)) }
{
    answered(lines_in_numbers(chunk, limits, function, pcs, lines), out)
}

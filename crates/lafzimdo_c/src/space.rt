// What is written into memory that the caller lends beside the array: the index, the copy, a local variable's name,
// the lines of a list of pcs.
ghost use Rattle.std.specs.Prelude.{◌≡◌, length};
ghost use Rattle.format.specs.ReadChunk.{read};
ghost use Rattle.show_row.specs.Asked.{function_of, entry_of};
ghost use Rattle.copy.specs.Copied.{shown_copy, copy_written};
ghost use Rattle.index.specs.Index.{shown_index, index_written};
ghost use Rattle.show_local.specs.Locals.{shown_local, name_written};
ghost use Rattle.line_batch.specs.Batch.{shown_lines, lines_written};
ghost use Rattle.c_boundary.specs.Status.{limits_of, status, written};
ghost use Rattle.lafzimdo.specs.Answers.{ofIndex, ofCopy, of_local, ofLines};

// The index of a chunk: how many functions it has, and their rows in the lent memory.
#[unsafe(no_mangle)]
pub extern "C" fn lafzimdo_index(
    chunk: &[u8],
    limits: &[u64; 9],
    rows: &mut [u32],
    out: &mut [u64; 1],
) -> u64
    ensures value { result ≡ status (ofIndex (shown_index (length rows.old) (read (limits_of limits.now) chunk.now))) }
    ensures out_after { out.new ≡ written (ofIndex (shown_index (length rows.old) (read (limits_of limits.now) chunk.now))) out.old }
    ensures rows_after { rows.new ≡ index_written rows.old (read (limits_of limits.now) chunk.now) }
{
    lafzimdo::space::lafzimdo_index(chunk, limits, rows, out)
}

// The archive copy of a chunk: its length, and its bytes in the lent memory.
#[unsafe(no_mangle)]
pub extern "C" fn lafzimdo_copy(
    chunk: &[u8],
    limits: &[u64; 9],
    copy: &mut [u8],
    out: &mut [u64; 1],
) -> u64
    ensures value { result ≡ status (ofCopy (shown_copy (length copy.old) (read (limits_of limits.now) chunk.now))) }
    ensures out_after { out.new ≡ written (ofCopy (shown_copy (length copy.old) (read (limits_of limits.now) chunk.now))) out.old }
    ensures copy_after { copy.new ≡ copy_written copy.old (read (limits_of limits.now) chunk.now) }
{
    lafzimdo::space::lafzimdo_copy(chunk, limits, copy, out)
}

// A local variable of a function, by their numbers: where it is live, and its name in the lent memory.
#[unsafe(no_mangle)]
pub extern "C" fn lafzimdo_local(
    chunk: &[u8],
    limits: &[u64; 9],
    function: usize,
    entry: usize,
    name: &mut [u8],
    out: &mut [u64; 3],
) -> u64
    ensures value { result ≡ status (of_local (shown_local (length name.old) (entry_of (λ p. p.loc_vars) function entry (read (limits_of limits.now) chunk.now)))) }
    ensures out_after { out.new ≡ written (of_local (shown_local (length name.old) (entry_of (λ p. p.loc_vars) function entry (read (limits_of limits.now) chunk.now)))) out.old }
    ensures name_after { name.new ≡ name_written name.old (entry_of (λ p. p.loc_vars) function entry (read (limits_of limits.now) chunk.now)) }
{
    lafzimdo::space::lafzimdo_local(chunk, limits, function, entry, name, out)
}

// The lines of the instructions `pcs` of a function, which never fall: how many of its deltas were read, and the lines
// in the lent memory.
#[unsafe(no_mangle)]
pub extern "C" fn lafzimdo_lines(
    chunk: &[u8],
    limits: &[u64; 9],
    function: usize,
    pcs: &[u64],
    lines: &mut [u64],
    out: &mut [u64; 1],
) -> u64
    ensures value { result ≡ status (ofLines (shown_lines (length lines.old) pcs.now (function_of function (read (limits_of limits.now) chunk.now)))) }
    ensures out_after { out.new ≡ written (ofLines (shown_lines (length lines.old) pcs.now (function_of function (read (limits_of limits.now) chunk.now)))) out.old }
    ensures lines_after { lines.new ≡ lines_written lines.old pcs.now (function_of function (read (limits_of limits.now) chunk.now)) }
{
    lafzimdo::space::lafzimdo_lines(chunk, limits, function, pcs, lines, out)
}

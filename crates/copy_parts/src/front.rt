// The front of a function, field by field: read as `read_front` of read_prototype reads it, and put into the copy in the same pass.
// It has its own readers: a second caller of `read_front` would cost every walk, which has it inlined.
ghost use Rattle.std.specs.Prelude.{◌≡◌, cond, [], ◌∷◌, drop, IfOk};
ghost use Rattle.format.specs.Shortest.{shortest};
ghost use Rattle.read_prototype.specs.Front as spec;
ghost use Rattle.read_prototype.specs.Inner.Results.{lines_result, sizes_result, front_result};
ghost use Rattle.copy_put.specs.Inner.Put.{Put};
ghost use Rattle.copy_put.specs.Inner.Text.{There, spelt};
ghost use Rattle.copy_entry.specs.Inner.Passed.{cursor_of};
ghost use Rattle.copy_parts.specs.Inner.Parts.{lines_bytes};
ghost use Rattle.copy_parts.specs.Inner.Fronts.{lines_read, sizes_read, front_read, PutsLines, PutsSizes, PutsFront};

use copy_entry::entry::Passed;
use copy_put::number::put_varint;
use copy_put::raw::put_byte;
use copy_put::text::put_string;
use format::refusal::Refusal;
use read_field::field::read_u8;
use read_field::string::{StringAt, read_string_lua54};
use read_field::varint::read_value;
use read_prototype::front::{Lines, Sizes};
use slice::cursor::Cursor;

// Main's source; a nested function's is written as absent.
fn put_source(s: &[u8], named: bool, source: Option<StringAt>, out: &mut [u8]) -> usize
    ensures { There s.now source → Put (cond named (spelt s.now source) (shortest 0)) 0 out.old result out.new }
{
    if named {
        return put_string(s, source, out, 0);
    }
    put_varint(out, 0, 0)
}

fn put_lines(lines: Lines, out: &mut [u8], at: usize) -> usize
    ensures { Put (lines_bytes lines) at out.old result out.new }
{
    let first = put_varint(out, at, lines.line_defined as u64);
    put_varint(out, first, lines.last_line_defined as u64)
}

fn copy_lines(s: &[u8], cursor: Cursor, out: &mut [u8], at: usize) -> Result<Passed, Refusal>
    ensures read_value { cursor_of result ≡ lines_read (lines_result (spec.lines cursor.at (drop cursor.at s.now))) }
    ensures puts_lines { IfOk result (λ p. PutsLines (lines_result (spec.lines cursor.at (drop cursor.at s.now))) at out.old p.behind out.new) }
{
    let (line_defined, further) = read_value(s, cursor)?;
    let (last_line_defined, next) = read_value(s, further)?;
    let lines = Lines {
        line_defined: line_defined as usize,
        last_line_defined: last_line_defined as usize,
    };
    let behind = put_lines(lines, out, at);
    Ok(Passed { next, behind })
}

fn put_sizes(sizes: Sizes, out: &mut [u8], at: usize) -> usize
    ensures { Put (sizes.numparams ∷ sizes.is_vararg ∷ sizes.maxstacksize ∷ []) at out.old result out.new }
{
    let first = put_byte(out, at, sizes.numparams);
    let second = put_byte(out, first, sizes.is_vararg);
    put_byte(out, second, sizes.maxstacksize)
}

fn copy_sizes(s: &[u8], cursor: Cursor, out: &mut [u8], at: usize) -> Result<Passed, Refusal>
    ensures read_value { cursor_of result ≡ sizes_read (sizes_result (spec.sizes cursor.at (drop cursor.at s.now))) }
    ensures puts_sizes { IfOk result (λ p. PutsSizes (sizes_result (spec.sizes cursor.at (drop cursor.at s.now))) at out.old p.behind out.new) }
{
    let (numparams, further) = read_u8(s, cursor)?;
    let (is_vararg, last) = read_u8(s, further)?;
    let (maxstacksize, next) = read_u8(s, last)?;
    let sizes = Sizes {
        numparams,
        is_vararg,
        maxstacksize,
    };
    let behind = put_sizes(sizes, out, at);
    Ok(Passed { next, behind })
}

// From the source to the three bytes, at the start of the lent memory. Ruled out: a nested function's source kept, the lines exchanged.
pub fn copy_front(
    s: &[u8],
    named: bool,
    max_string_bytes: usize,
    cursor: Cursor,
    out: &mut [u8],
) -> Result<Passed, Refusal>
    ensures read_value { cursor_of result ≡ front_read (front_result (spec.front max_string_bytes cursor.at (drop cursor.at s.now))) }
    ensures puts_front { IfOk result (λ p. PutsFront s.now named (front_result (spec.front max_string_bytes cursor.at (drop cursor.at s.now))) out.old p.behind out.new) }
{
    let (source, next) = read_string_lua54(s, cursor, max_string_bytes)?;
    let behind = put_source(s, named, source, out);
    let lines = copy_lines(s, next, out, behind)?;
    copy_sizes(s, lines.next, out, lines.behind)
}

// The entries of the lists that have entries of any length, from the first on: judged and copied in one pass, behind their count in the copy.
ghost use Rattle.std.specs.Prelude.{◌≡◌, drop, IfOk};
ghost use Rattle.format.specs.Form.{Below};
ghost use Rattle.format.specs.Read.{many};
ghost use Rattle.format.specs.ReadFields.{string};
ghost use Rattle.format.specs.ReadChunk.{constant, anchor, local};
ghost use Rattle.format.specs.Copy.{constant_bytes, anchor_bytes, local_bytes, option_bytes};
ghost use Rattle.copy_put.specs.Inner.Put.{PutsAll};
ghost use Rattle.slice.specs.Inner.Results.{cursor_result};
ghost use Rattle.copy_entry.specs.Inner.Passed.{cursor_of};

use crate::entry::{Passed, copy_anchor, copy_constant, copy_local, copy_name};
use copy_put::number::put_varint;
use format::refusal::Refusal;
use slice::cursor::Cursor;

// Puts the count, then reads so many constants and puts each. Ruled out: the last one left out, the list without its count.
pub fn copy_constants(
    s: &[u8],
    cursor: Cursor,
    count: usize,
    max_string_bytes: usize,
    out: &mut [u8],
    at: usize,
) -> Result<Passed, Refusal>
    ensures read_value { cursor_of result ≡ cursor_result (many count (constant max_string_bytes) cursor.at (drop cursor.at s.now)) }
    ensures puts_all { Below 256 s.now → IfOk result (λ p. PutsAll constant_bytes (many count (constant max_string_bytes) cursor.at (drop cursor.at s.now)) at out.old p.behind out.new) }
{
    let mut passed = Passed {
        next: cursor,
        behind: put_varint(out, at, count as u64),
    };
    for _ in 0..count {
        passed = copy_constant(s, passed.next, max_string_bytes, out, passed.behind)?;
    }
    Ok(passed)
}

// Puts the count, then reads so many anchors and puts each. Ruled out: as many numbers as the count says, the count padded.
pub fn copy_anchors(
    s: &[u8],
    cursor: Cursor,
    count: usize,
    out: &mut [u8],
    at: usize,
) -> Result<Passed, Refusal>
    ensures read_value { cursor_of result ≡ cursor_result (many count anchor cursor.at (drop cursor.at s.now)) }
    ensures puts_all { IfOk result (λ p. PutsAll anchor_bytes (many count anchor cursor.at (drop cursor.at s.now)) at out.old p.behind out.new) }
{
    let mut passed = Passed {
        next: cursor,
        behind: put_varint(out, at, count as u64),
    };
    for _ in 0..count {
        passed = copy_anchor(s, passed.next, out, passed.behind)?;
    }
    Ok(passed)
}

// Puts the count, then reads so many local variables and puts each. Ruled out: names without their pcs, an absent name passed over.
pub fn copy_locals(
    s: &[u8],
    cursor: Cursor,
    count: usize,
    max_string_bytes: usize,
    out: &mut [u8],
    at: usize,
) -> Result<Passed, Refusal>
    ensures read_value { cursor_of result ≡ cursor_result (many count (local max_string_bytes) cursor.at (drop cursor.at s.now)) }
    ensures puts_all { IfOk result (λ p. PutsAll local_bytes (many count (local max_string_bytes) cursor.at (drop cursor.at s.now)) at out.old p.behind out.new) }
{
    let mut passed = Passed {
        next: cursor,
        behind: put_varint(out, at, count as u64),
    };
    for _ in 0..count {
        passed = copy_local(s, passed.next, max_string_bytes, out, passed.behind)?;
    }
    Ok(passed)
}

// Puts the count, then reads so many names of upvalues and puts each. Ruled out: an absent name left out, as many names as there are upvalues.
pub fn copy_names(
    s: &[u8],
    cursor: Cursor,
    count: usize,
    max_string_bytes: usize,
    out: &mut [u8],
    at: usize,
) -> Result<Passed, Refusal>
    ensures read_value { cursor_of result ≡ cursor_result (many count (string max_string_bytes) cursor.at (drop cursor.at s.now)) }
    ensures puts_all { IfOk result (λ p. PutsAll option_bytes (many count (string max_string_bytes) cursor.at (drop cursor.at s.now)) at out.old p.behind out.new) }
{
    let mut passed = Passed {
        next: cursor,
        behind: put_varint(out, at, count as u64),
    };
    for _ in 0..count {
        passed = copy_name(s, passed.next, max_string_bytes, out, passed.behind)?;
    }
    Ok(passed)
}

// Deltas, anchors, local variables and upvalue names.
ghost use Rattle.std.specs.Prelude.{◌≡◌, drop};
ghost use Rattle.format.specs.ReadFields.{string};
ghost use Rattle.format.specs.ReadChunk as spec;
ghost use Rattle.read_field.specs.Shown.{shown, string_result};
ghost use Rattle.read_entry.specs.Shown.{anchor_result, local_result};
ghost use Rattle.read_nth.specs.Inner.Nth.{entry_at, byte_at, local_at};

use format::entry::AbsLineInfo;
use format::refusal::Refusal;
use read_entry::debug::{LocalAt, read_anchor, read_local};
use read_entry::pass::{pass_anchors, pass_locals, pass_strings};
use read_field::field::read_u8;
use read_field::string::{StringAt, read_string_lua54};
use slice::cursor::{Cursor, read_exact};

// The delta with a number, from 0, of those that begin at the cursor, as a byte. Ruled out: the first delta whatever the number, one delta too far.
pub fn nth_delta(s: &[u8], cursor: Cursor, entry: usize) -> Result<(u8, Cursor), Refusal>
    ensures { result ≡ shown (byte_at entry cursor.at (drop cursor.at s.now)) }
{
    let next = read_exact(s, cursor, entry)?;
    read_u8(s, next)
}

// The anchor with a number, from 0, of those that begin at the cursor. Ruled out: the first anchor whatever the number, a number taken for an anchor.
pub fn nth_anchor(s: &[u8], cursor: Cursor, entry: usize) -> Result<(AbsLineInfo, Cursor), Refusal>
    ensures { result ≡ anchor_result (entry_at entry spec.anchor cursor.at (drop cursor.at s.now)) }
{
    let mut unused = [0usize; 4];
    let next = pass_anchors(s, cursor, entry, &mut unused)?;
    read_anchor(s, next)
}

// The local variable with a number, from 0, of those that begin at the cursor, with its name as it is spelt. Ruled out: the name of the local before, an absent name given as `?`.
pub fn nth_local(
    s: &[u8],
    cursor: Cursor,
    entry: usize,
    max_string_bytes: usize,
) -> Result<(LocalAt, Cursor), Refusal>
    ensures { result ≡ local_result (local_at entry max_string_bytes cursor.at (drop cursor.at s.now)) }
{
    let mut unused = [0usize; 4];
    let next = pass_locals(s, cursor, entry, max_string_bytes, &mut unused)?;
    read_local(s, next, max_string_bytes)
}

// The upvalue name with a number, from 0, of those that begin at the cursor. Ruled out: absent names not counted, an absent name given as an empty one.
pub fn nth_name(
    s: &[u8],
    cursor: Cursor,
    entry: usize,
    max_string_bytes: usize,
) -> Result<(Option<StringAt>, Cursor), Refusal>
    ensures { result ≡ string_result (entry_at entry (string max_string_bytes) cursor.at (drop cursor.at s.now)) }
{
    let mut unused = [0usize; 4];
    let next = pass_strings(s, cursor, entry, max_string_bytes, &mut unused)?;
    read_string_lua54(s, next, max_string_bytes)
}

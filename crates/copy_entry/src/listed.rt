// The lists that have entries of any length, each with its count: judged as `read_list` judges them, and copied in the same pass.
ghost use Rattle.std.specs.Prelude.{◌≡◌, drop, IfOk};
ghost use Rattle.format.specs.declared.refusal.Refusal.TheVariants.{Constants};
ghost use Rattle.format.specs.Form.{Below};
ghost use Rattle.format.specs.ReadFields.{string};
ghost use Rattle.format.specs.ReadChunk as spec;
ghost use Rattle.format.specs.Copy.{constant_bytes, anchor_bytes, local_bytes, option_bytes};
ghost use Rattle.read_list.specs.Inner.Shown.{list_result};
ghost use Rattle.copy_entry.specs.Inner.Passed.{list_of, PutsListed};

use crate::list::{copy_anchors, copy_constants, copy_locals, copy_names};
use format::refusal::Refusal;
use read_field::varint::read_value;
use read_list::{ListAt, count_up_to};
use slice::cursor::Cursor;

// A list, and behind it the cursor in the chunk and the place in the copy.
#[derive(Clone, Copy)]
pub struct Listed {
    pub list: ListAt,
    pub next: Cursor,
    pub behind: usize,
}

// Reads the count of the constants, holds it against its limit, and copies the list. Ruled out: a count above the limit copied, entries put before their count.
pub fn copy_constants_list(
    s: &[u8],
    cursor: Cursor,
    max_constants: usize,
    max_string_bytes: usize,
    out: &mut [u8],
    at: usize,
) -> Result<Listed, Refusal>
    ensures list_value { list_of result ≡ list_result (spec.counted_up_to max_constants Constants (spec.constant max_string_bytes) cursor.at (drop cursor.at s.now)) }
    ensures puts_listed { Below 256 s.now → IfOk result (λ l. PutsListed (spec.constant max_string_bytes) constant_bytes s.now l at out.old out.new) }
{
    let mut unused = [0usize; 4];
    let refusal = Refusal::Constants(cursor.at);
    let (value, next) = count_up_to(s, cursor, max_constants, refusal, &mut unused)?;
    let count = value as usize;
    let items = copy_constants(s, next, count, max_string_bytes, out, at)?;
    Ok(Listed {
        list: ListAt {
            count,
            place: next.at,
        },
        next: items.next,
        behind: items.behind,
    })
}

// Reads the count of the anchors and copies the list. Ruled out: a limit on anchors.
pub fn copy_anchors_list(
    s: &[u8],
    cursor: Cursor,
    out: &mut [u8],
    at: usize,
) -> Result<Listed, Refusal>
    ensures list_value { list_of result ≡ list_result (spec.counted spec.anchor cursor.at (drop cursor.at s.now)) }
    ensures puts_listed { IfOk result (λ l. PutsListed spec.anchor anchor_bytes s.now l at out.old out.new) }
{
    let (value, next) = read_value(s, cursor)?;
    let count = value as usize;
    let items = copy_anchors(s, next, count, out, at)?;
    Ok(Listed {
        list: ListAt {
            count,
            place: next.at,
        },
        next: items.next,
        behind: items.behind,
    })
}

// Reads the count of the local variables and copies the list. Ruled out: a list that ends at an absent name.
pub fn copy_locals_list(
    s: &[u8],
    cursor: Cursor,
    max_string_bytes: usize,
    out: &mut [u8],
    at: usize,
) -> Result<Listed, Refusal>
    ensures list_value { list_of result ≡ list_result (spec.counted (spec.local max_string_bytes) cursor.at (drop cursor.at s.now)) }
    ensures puts_listed { IfOk result (λ l. PutsListed (spec.local max_string_bytes) local_bytes s.now l at out.old out.new) }
{
    let (value, next) = read_value(s, cursor)?;
    let count = value as usize;
    let items = copy_locals(s, next, count, max_string_bytes, out, at)?;
    Ok(Listed {
        list: ListAt {
            count,
            place: next.at,
        },
        next: items.next,
        behind: items.behind,
    })
}

// Reads the count of the upvalues' names and copies the list. Ruled out: more names than upvalues refused.
pub fn copy_names_list(
    s: &[u8],
    cursor: Cursor,
    max_string_bytes: usize,
    out: &mut [u8],
    at: usize,
) -> Result<Listed, Refusal>
    ensures list_value { list_of result ≡ list_result (spec.counted (string max_string_bytes) cursor.at (drop cursor.at s.now)) }
    ensures puts_listed { IfOk result (λ l. PutsListed (string max_string_bytes) option_bytes s.now l at out.old out.new) }
{
    let (value, next) = read_value(s, cursor)?;
    let count = value as usize;
    let items = copy_names(s, next, count, max_string_bytes, out, at)?;
    Ok(Listed {
        list: ListAt {
            count,
            place: next.at,
        },
        next: items.next,
        behind: items.behind,
    })
}

// One entry of a function, by the function's number and its own.
#![tactic(auto)]

ghost use Rattle.std.specs.Prelude.{◌≡◌};
ghost use Rattle.std.specs.Int.{w8};
ghost use Rattle.std.proofs.Common.{to_z};
ghost use Rattle.format.specs.ReadChunk.{read};
ghost use Rattle.show_row.specs.Asked.{entry_of};
ghost use Rattle.show_entry.specs.Entries.{shown_word, shown_constant, shown_upvalue, shown_delta, shown_anchor, shown_name};

use format::entry::{AbsLineInfo, UpvalueDesc};
use format::limits::ResourceLimits;
use format::refusal::Refusal;
use read_entry::constant::ConstantValue;
use read_field::string::StringAt;
use read_nth::code::{nth_constant, nth_upvalue, nth_word};
use read_nth::debug::{nth_anchor, nth_delta, nth_name};
use show_row::place::{EntryKind, entry_list};

// An instruction word of a function, by their numbers. Ruled out: a word of another function, 24 before 23.
pub fn instruction(
    s: &[u8],
    limits: ResourceLimits,
    function: usize,
    entry: usize,
) -> Result<u32, Refusal>
    ensures { result ≡ shown_word (entry_of (λ p. p.instructions) function entry (read limits s.now)) }
{
    let list = entry_list(s, limits, function, EntryKind::Instruction, entry)?;
    let (word, _) = nth_word(s, list, entry)?;
    Ok(word)
}

// A constant of a function, by their numbers; of a string the place and length. Ruled out: the first constant whatever the number, a short string shown as a long one.
pub fn constant(
    s: &[u8],
    limits: ResourceLimits,
    function: usize,
    entry: usize,
) -> Result<ConstantValue, Refusal>
    ensures { result ≡ shown_constant (entry_of (λ p. p.constants) function entry (read limits s.now)) }
{
    let list = entry_list(s, limits, function, EntryKind::Constant, entry)?;
    let (constant, _) = nth_constant(s, list, entry, limits.max_string_bytes)?;
    Ok(constant)
}

// An upvalue of a function, by their numbers. Ruled out: instack and idx exchanged, an upvalue of the parent.
pub fn upvalue(
    s: &[u8],
    limits: ResourceLimits,
    function: usize,
    entry: usize,
) -> Result<UpvalueDesc, Refusal>
    ensures { result ≡ shown_upvalue (entry_of (λ p. p.upvalues) function entry (read limits s.now)) }
{
    let list = entry_list(s, limits, function, EntryKind::Upvalue, entry)?;
    let (upvalue, _) = nth_upvalue(s, list, entry)?;
    Ok(upvalue)
}

// The signed number of 8 bits.
fn signed(bits: u8) -> i8
    ensures { result ≡ to_z w8 bits }
{
    if bits < 128 {
        return bits as i8;
    }
    -1 - ((255 - bits) as i8)
}

// A line delta of a function, by their numbers. Ruled out: a byte from 128 up shown as it stands, the delta before.
pub fn delta(s: &[u8], limits: ResourceLimits, function: usize, entry: usize) -> Result<i8, Refusal>
    ensures { result ≡ shown_delta (entry_of (λ p. p.line_info_lem) function entry (read limits s.now)) }
{
    let list = entry_list(s, limits, function, EntryKind::Delta, entry)?;
    let (delta, _) = nth_delta(s, list, entry)?;
    Ok(signed(delta))
}

// An anchor of a function, by their numbers. Ruled out: pc and line exchanged, the first anchor whatever the number.
pub fn anchor(
    s: &[u8],
    limits: ResourceLimits,
    function: usize,
    entry: usize,
) -> Result<AbsLineInfo, Refusal>
    ensures { result ≡ shown_anchor (entry_of (λ p. p.abs_line_info) function entry (read limits s.now)) }
{
    let list = entry_list(s, limits, function, EntryKind::Anchor, entry)?;
    let (anchor, _) = nth_anchor(s, list, entry)?;
    Ok(anchor)
}

// The name of an upvalue of a function, by their numbers, if it has one: place and length.
// Ruled out: an absent name shown as an empty one, names beyond the upvalues refused.
pub fn upvalue_name(
    s: &[u8],
    limits: ResourceLimits,
    function: usize,
    entry: usize,
) -> Result<Option<StringAt>, Refusal>
    ensures { result ≡ shown_name (entry_of (λ p. p.upvalue_names_lem) function entry (read limits s.now)) }
{
    let list = entry_list(s, limits, function, EntryKind::UpvalueName, entry)?;
    let (name, _) = nth_name(s, list, entry, limits.max_string_bytes)?;
    Ok(name)
}

// Lists behind their counts: how many items, where the first begins, and the cursor behind the last. Their numbers are counted on the way. Most lists of small functions are empty, and these call nothing.
#![tactic(auto)]

ghost use Rattle.std.specs.Prelude.{◌≡◌, drop};
ghost use Rattle.format.specs.declared.refusal.Refusal.TheVariants.{Constants, Upvalues};
ghost use Rattle.format.specs.ReadFields.{string};
ghost use Rattle.format.specs.ReadChunk as spec;
ghost use Rattle.format_spelling.specs.ReadSpelling as count;
ghost use Rattle.format_spelling.specs.Inner.Tally.{Room, Adds};
ghost use Rattle.read_field.specs.Shown.{shown};
ghost use Rattle.read_entry.specs.Readers.{code, line_info, protos_count};
ghost use Rattle.read_entry.specs.Inner.Counts.{count_up_to, code_count};
ghost use Rattle.read_list.specs.Inner.Shown.{listed_of, list_result, count_result};

use format::refusal::Refusal;
use format_spelling::tally::Tally;
use read_entry::pass::{pass_anchors, pass_constants, pass_locals, pass_strings};
use read_entry::runs::{skip_upvalues, skip_words};
use read_field::varint::tally_varint;
use slice::cursor::{Cursor, read_exact};

// A list of a function: how many entries it has, and the place of the first, just after the count.
#[derive(Clone, Copy)]
pub struct ListAt {
    pub count: usize,
    pub place: usize,
}

// What a list shows, of what passing over its items showed.
pub fn listed(
    items: Result<Cursor, Refusal>,
    count: usize,
    place: usize,
) -> Result<(ListAt, Cursor), Refusal>
    ensures { result ≡ listed_of items count place }
{
    Ok((ListAt { count, place }, items?))
}

// A count that is at most the limit, or the refusal.
pub fn count_up_to(
    s: &[u8],
    cursor: Cursor,
    limit: usize,
    refusal: Refusal,
    tally: &mut Tally,
) -> Result<(u64, Cursor), Refusal>
    requires { Room tally.old cursor.at }
    ensures value { result ≡ shown (count_up_to limit refusal cursor.at (drop cursor.at s.now)) }
    ensures adds { Adds (count_up_to limit refusal cursor.at (drop cursor.at s.now)) (count.number cursor.at (drop cursor.at s.now)) tally.old tally.new }
{
    let (value, next) = tally_varint(s, cursor, tally)?;
    if limit < value as usize {
        return Err(refusal);
    }
    Ok((value, next))
}

// Passes over the constants of a function: their count, which is held to its limit, and each of them.
// Ruled out: a count of the limit refused, cut short reported before the limit.
pub fn constants_list(
    s: &[u8],
    cursor: Cursor,
    max_constants: usize,
    max_string_bytes: usize,
    tally: &mut Tally,
) -> Result<(ListAt, Cursor), Refusal>
    requires { Room tally.old cursor.at }
    ensures value { result ≡ list_result (spec.counted_up_to max_constants Constants (spec.constant max_string_bytes) cursor.at (drop cursor.at s.now)) }
    ensures adds { Adds (spec.counted_up_to max_constants Constants (spec.constant max_string_bytes) cursor.at (drop cursor.at s.now)) (count.counted (spec.constant max_string_bytes) (count.constant max_string_bytes) cursor.at (drop cursor.at s.now)) tally.old tally.new }
{
    let (value, next) = count_up_to(
        s,
        cursor,
        max_constants,
        Refusal::Constants(cursor.at),
        tally,
    )?;
    let count = value as usize;
    if count == 0 {
        return listed(Ok(next), count, next.at);
    }
    listed(
        pass_constants(s, next, count, max_string_bytes, tally),
        count,
        next.at,
    )
}

// Passes over the upvalues of a function: their count, which is held to its limit, and three bytes each.
// Ruled out: the place of the count given as that of the items, one byte an upvalue.
pub fn upvalues_list(
    s: &[u8],
    cursor: Cursor,
    max_upvalues: usize,
    tally: &mut Tally,
) -> Result<(ListAt, Cursor), Refusal>
    requires { Room tally.old cursor.at }
    ensures value { result ≡ list_result (spec.counted_up_to max_upvalues Upvalues spec.upvalue cursor.at (drop cursor.at s.now)) }
    ensures adds { Adds (spec.counted_up_to max_upvalues Upvalues spec.upvalue cursor.at (drop cursor.at s.now)) (count.number cursor.at (drop cursor.at s.now)) tally.old tally.new }
{
    let (value, next) = count_up_to(s, cursor, max_upvalues, Refusal::Upvalues(cursor.at), tally)?;
    let count = value as usize;
    listed(skip_upvalues(s, next, count), count, next.at)
}

// Passes over the line deltas of a function: their count, and a byte each. Ruled out: place plus size that wraps, the refusal at the place of the count.
pub fn line_info_list(
    s: &[u8],
    cursor: Cursor,
    tally: &mut Tally,
) -> Result<(ListAt, Cursor), Refusal>
    requires { Room tally.old cursor.at }
    ensures value { result ≡ list_result (line_info cursor.at (drop cursor.at s.now)) }
    ensures adds { Adds (line_info cursor.at (drop cursor.at s.now)) (count.number cursor.at (drop cursor.at s.now)) tally.old tally.new }
{
    let (value, next) = tally_varint(s, cursor, tally)?;
    let count = value as usize;
    listed(read_exact(s, next, count), count, next.at)
}

// Passes over the anchors of a function: their count, and two numbers each. Ruled out: a limit on anchors, the count of numbers given as that of anchors.
pub fn anchors_list(
    s: &[u8],
    cursor: Cursor,
    tally: &mut Tally,
) -> Result<(ListAt, Cursor), Refusal>
    requires { Room tally.old cursor.at }
    ensures value { result ≡ list_result (spec.counted spec.anchor cursor.at (drop cursor.at s.now)) }
    ensures adds { Adds (spec.counted spec.anchor cursor.at (drop cursor.at s.now)) (count.counted spec.anchor count.anchor cursor.at (drop cursor.at s.now)) tally.old tally.new }
{
    let (value, next) = tally_varint(s, cursor, tally)?;
    let count = value as usize;
    if count == 0 {
        return listed(Ok(next), count, next.at);
    }
    listed(pass_anchors(s, next, count, tally), count, next.at)
}

// Passes over the local variables of a function: their count, and each with its name and its two numbers.
// Ruled out: a list that ends at an absent name, the cursor behind the last name.
pub fn locals_list(
    s: &[u8],
    cursor: Cursor,
    max_string_bytes: usize,
    tally: &mut Tally,
) -> Result<(ListAt, Cursor), Refusal>
    requires { Room tally.old cursor.at }
    ensures value { result ≡ list_result (spec.counted (spec.local max_string_bytes) cursor.at (drop cursor.at s.now)) }
    ensures adds { Adds (spec.counted (spec.local max_string_bytes) cursor.at (drop cursor.at s.now)) (count.counted (spec.local max_string_bytes) (count.local max_string_bytes) cursor.at (drop cursor.at s.now)) tally.old tally.new }
{
    let (value, next) = tally_varint(s, cursor, tally)?;
    let count = value as usize;
    if count == 0 {
        return listed(Ok(next), count, next.at);
    }
    listed(
        pass_locals(s, next, count, max_string_bytes, tally),
        count,
        next.at,
    )
}

// Passes over the upvalue names of a function: their count, and each of them. Ruled out: absent names not counted, more names than upvalues refused.
pub fn names_list(
    s: &[u8],
    cursor: Cursor,
    max_string_bytes: usize,
    tally: &mut Tally,
) -> Result<(ListAt, Cursor), Refusal>
    requires { Room tally.old cursor.at }
    ensures value { result ≡ list_result (spec.counted (string max_string_bytes) cursor.at (drop cursor.at s.now)) }
    ensures adds { Adds (spec.counted (string max_string_bytes) cursor.at (drop cursor.at s.now)) (count.counted (string max_string_bytes) count.string cursor.at (drop cursor.at s.now)) tally.old tally.new }
{
    let (value, next) = tally_varint(s, cursor, tally)?;
    let count = value as usize;
    if count == 0 {
        return listed(Ok(next), count, next.at);
    }
    listed(
        pass_strings(s, next, count, max_string_bytes, tally),
        count,
        next.at,
    )
}

// How many instructions: at most so many in a function, and with those of the functions before at most so many in all.
fn instruction_count(
    s: &[u8],
    cursor: Cursor,
    max_instructions_per_proto: usize,
    instructions_before: usize,
    max_total_instructions: usize,
    tally: &mut Tally,
) -> Result<(u64, Cursor), Refusal>
    requires { Room tally.old cursor.at }
    ensures value { result ≡ shown (code_count max_instructions_per_proto instructions_before max_total_instructions cursor.at (drop cursor.at s.now)) }
    ensures adds { Adds (code_count max_instructions_per_proto instructions_before max_total_instructions cursor.at (drop cursor.at s.now)) (count.number cursor.at (drop cursor.at s.now)) tally.old tally.new }
{
    let first = cursor.at;
    let refusal = Refusal::Instructions(first);
    let (value, next) = count_up_to(s, cursor, max_instructions_per_proto, refusal, tally)?;
    if max_total_instructions < instructions_before {
        return Err(Refusal::TotalInstructions(first));
    }
    if max_total_instructions - instructions_before < value as usize {
        return Err(Refusal::TotalInstructions(first));
    }
    Ok((value, next))
}

// Passes over the instructions of a function: their count, which is held to its limit and to the total of all functions, and four bytes each.
// Ruled out: the total not tested, 15 where 14 holds too.
pub fn instructions_list(
    s: &[u8],
    cursor: Cursor,
    max_instructions_per_proto: usize,
    instructions_before: usize,
    max_total_instructions: usize,
    tally: &mut Tally,
) -> Result<(ListAt, Cursor), Refusal>
    requires { Room tally.old cursor.at }
    ensures value { result ≡ list_result (code max_instructions_per_proto instructions_before max_total_instructions cursor.at (drop cursor.at s.now)) }
    ensures adds { Adds (code max_instructions_per_proto instructions_before max_total_instructions cursor.at (drop cursor.at s.now)) (count.number cursor.at (drop cursor.at s.now)) tally.old tally.new }
{
    let (value, next) = instruction_count(
        s,
        cursor,
        max_instructions_per_proto,
        instructions_before,
        max_total_instructions,
        tally,
    )?;
    let count = value as usize;
    listed(skip_words(s, next, count), count, next.at)
}

// How many functions nest in this one. Ruled out: a count above the limit accepted, the place behind the count as that of its refusal.
pub fn protos_count(
    s: &[u8],
    cursor: Cursor,
    max_total_prototypes: usize,
    tally: &mut Tally,
) -> Result<(ListAt, Cursor), Refusal>
    requires { Room tally.old cursor.at }
    ensures value { result ≡ count_result (protos_count max_total_prototypes cursor.at (drop cursor.at s.now)) }
    ensures adds { Adds (protos_count max_total_prototypes cursor.at (drop cursor.at s.now)) (count.number cursor.at (drop cursor.at s.now)) tally.old tally.new }
{
    let refusal = Refusal::Prototypes(cursor.at);
    let (value, next) = count_up_to(s, cursor, max_total_prototypes, refusal, tally)?;
    Ok((
        ListAt {
            count: value as usize,
            place: next.at,
        },
        next,
    ))
}

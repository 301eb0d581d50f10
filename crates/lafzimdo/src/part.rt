// Parts at a place: each tests 21 and 22 first, takes no pass over the chunk, and costs what its part costs. What each answers is in specs/ of crates c_parts and c_entries_at.
ghost use Rattle.std.specs.Prelude.{◌≡◌};
ghost use Rattle.c_boundary.specs.Status.{status, written};
ghost use Rattle.c_entries_at.specs.EntryNumbers.{word_at, constant_at, upvalue_at, delta_at, anchor_at, local_at, string_at};
ghost use Rattle.c_parts.specs.PartNumbers.{head_at, tail_at};

use c_boundary::answered;
use c_entries_at::{anchor_at, constant_at, delta_at, local_at, string_at, upvalue_at, word_at};
use c_parts::{head_at, tail_at};

// The function that begins there, up to the functions that nest in it. Ruled out: the fields of the function around it, an array that is touched where the answer is a refusal.
#[unsafe(no_mangle)]
pub extern "C" fn lafzimdo_head_at(
    chunk: &[u8],
    limits: &[u64; 9],
    place: usize,
    out: &mut [u64; 16],
) -> u64
    ensures value { result ≡ status (head_at limits.now place chunk.now) }
    ensures out_after { out.new ≡ written (head_at limits.now place chunk.now) out.old }
{
    answered(head_at(chunk, limits, place), out)
}

// A function behind the functions that nest in it. Ruled out: deltas counted as anchors, the function's end before its last name.
#[unsafe(no_mangle)]
pub extern "C" fn lafzimdo_tail_at(
    chunk: &[u8],
    limits: &[u64; 9],
    place: usize,
    out: &mut [u64; 9],
) -> u64
    ensures value { result ≡ status (tail_at limits.now place chunk.now) }
    ensures out_after { out.new ≡ written (tail_at limits.now place chunk.now) out.old }
{
    answered(tail_at(chunk, limits, place), out)
}

// The instruction word that begins at a place, and the place behind it. Ruled out: high byte first, a word behind the end of the chunk.
#[unsafe(no_mangle)]
pub extern "C" fn lafzimdo_word_at(
    chunk: &[u8],
    limits: &[u64; 9],
    place: usize,
    out: &mut [u64; 2],
) -> u64
    ensures value { result ≡ status (word_at limits.now place chunk.now) }
    ensures out_after { out.new ≡ written (word_at limits.now place chunk.now) out.old }
{
    answered(word_at(chunk, limits, place), out)
}

// The constant that begins at a place, and the place behind it. Ruled out: a short string shown as a long one, a string above its limit.
#[unsafe(no_mangle)]
pub extern "C" fn lafzimdo_constant_at(
    chunk: &[u8],
    limits: &[u64; 9],
    place: usize,
    out: &mut [u64; 4],
) -> u64
    ensures value { result ≡ status (constant_at limits.now place chunk.now) }
    ensures out_after { out.new ≡ written (constant_at limits.now place chunk.now) out.old }
{
    answered(constant_at(chunk, limits, place), out)
}

// The upvalue that begins at a place, and the place behind it. Ruled out: instack and idx exchanged, two bytes an upvalue.
#[unsafe(no_mangle)]
pub extern "C" fn lafzimdo_upvalue_at(
    chunk: &[u8],
    limits: &[u64; 9],
    place: usize,
    out: &mut [u64; 4],
) -> u64
    ensures value { result ≡ status (upvalue_at limits.now place chunk.now) }
    ensures out_after { out.new ≡ written (upvalue_at limits.now place chunk.now) out.old }
{
    answered(upvalue_at(chunk, limits, place), out)
}

// The line delta at a place, and the place behind it. Ruled out: a byte from 128 up shown as it stands.
#[unsafe(no_mangle)]
pub extern "C" fn lafzimdo_delta_at(
    chunk: &[u8],
    limits: &[u64; 9],
    place: usize,
    out: &mut [u64; 2],
) -> u64
    ensures value { result ≡ status (delta_at limits.now place chunk.now) }
    ensures out_after { out.new ≡ written (delta_at limits.now place chunk.now) out.old }
{
    answered(delta_at(chunk, limits, place), out)
}

// The anchor that begins at a place, and the place behind it. Ruled out: pc and line exchanged, the place behind pc given as the one behind.
#[unsafe(no_mangle)]
pub extern "C" fn lafzimdo_anchor_at(
    chunk: &[u8],
    limits: &[u64; 9],
    place: usize,
    out: &mut [u64; 3],
) -> u64
    ensures value { result ≡ status (anchor_at limits.now place chunk.now) }
    ensures out_after { out.new ≡ written (anchor_at limits.now place chunk.now) out.old }
{
    answered(anchor_at(chunk, limits, place), out)
}

// The local variable that begins at a place, with its name as it is spelt, and the place behind it. Ruled out: an absent name shown as an empty one, startpc and endpc exchanged.
#[unsafe(no_mangle)]
pub extern "C" fn lafzimdo_local_at(
    chunk: &[u8],
    limits: &[u64; 9],
    place: usize,
    out: &mut [u64; 6],
) -> u64
    ensures value { result ≡ status (local_at limits.now place chunk.now) }
    ensures out_after { out.new ≡ written (local_at limits.now place chunk.now) out.old }
{
    answered(local_at(chunk, limits, place), out)
}

// The string that begins at a place, and the place behind it. Ruled out: an absent string shown as an empty one, a place before its size.
#[unsafe(no_mangle)]
pub extern "C" fn lafzimdo_string_at(
    chunk: &[u8],
    limits: &[u64; 9],
    place: usize,
    out: &mut [u64; 4],
) -> u64
    ensures value { result ≡ status (string_at limits.now place chunk.now) }
    ensures out_after { out.new ≡ written (string_at limits.now place chunk.now) out.old }
{
    answered(string_at(chunk, limits, place), out)
}

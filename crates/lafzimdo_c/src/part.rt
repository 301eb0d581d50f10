// Parts at a place: each tests 21 and 22 first, takes no pass over the chunk, and costs what its part costs. What each
// answers is in specs/ of crates c_parts and c_entries_at.
ghost use Rattle.std.specs.Prelude.{◌≡◌};
ghost use Rattle.c_boundary.specs.Status.{status, written};
ghost use Rattle.c_entries_at.specs.EntryNumbers.{word_at, constant_at, upvalue_at, delta_at, anchor_at, local_at, string_at};
ghost use Rattle.c_parts.specs.PartNumbers.{head_at, tail_at};

// The function that begins there, up to the functions that nest in it.
#[unsafe(no_mangle)]
pub extern "C" fn lafzimdo_head_at(
    chunk: &[u8],
    limits: &[u64; 9],
    place: usize,
    out: &mut [u64; 16],
) -> u64
    ensures value { result ≡ status (head_at limits.now place chunk.now) }
    ensures out_after { out.new ≡ written (head_at limits.now place chunk.now) out.old }
{
    lafzimdo::part::lafzimdo_head_at(chunk, limits, place, out)
}

// A function behind the functions that nest in it.
#[unsafe(no_mangle)]
pub extern "C" fn lafzimdo_tail_at(
    chunk: &[u8],
    limits: &[u64; 9],
    place: usize,
    out: &mut [u64; 9],
) -> u64
    ensures value { result ≡ status (tail_at limits.now place chunk.now) }
    ensures out_after { out.new ≡ written (tail_at limits.now place chunk.now) out.old }
{
    lafzimdo::part::lafzimdo_tail_at(chunk, limits, place, out)
}

// The instruction word that begins at a place, and the place behind it.
#[unsafe(no_mangle)]
pub extern "C" fn lafzimdo_word_at(
    chunk: &[u8],
    limits: &[u64; 9],
    place: usize,
    out: &mut [u64; 2],
) -> u64
    ensures value { result ≡ status (word_at limits.now place chunk.now) }
    ensures out_after { out.new ≡ written (word_at limits.now place chunk.now) out.old }
{
    lafzimdo::part::lafzimdo_word_at(chunk, limits, place, out)
}

// The constant that begins at a place, and the place behind it.
#[unsafe(no_mangle)]
pub extern "C" fn lafzimdo_constant_at(
    chunk: &[u8],
    limits: &[u64; 9],
    place: usize,
    out: &mut [u64; 4],
) -> u64
    ensures value { result ≡ status (constant_at limits.now place chunk.now) }
    ensures out_after { out.new ≡ written (constant_at limits.now place chunk.now) out.old }
{
    lafzimdo::part::lafzimdo_constant_at(chunk, limits, place, out)
}

// The upvalue that begins at a place, and the place behind it.
#[unsafe(no_mangle)]
pub extern "C" fn lafzimdo_upvalue_at(
    chunk: &[u8],
    limits: &[u64; 9],
    place: usize,
    out: &mut [u64; 4],
) -> u64
    ensures value { result ≡ status (upvalue_at limits.now place chunk.now) }
    ensures out_after { out.new ≡ written (upvalue_at limits.now place chunk.now) out.old }
{
    lafzimdo::part::lafzimdo_upvalue_at(chunk, limits, place, out)
}

// The line delta at a place, and the place behind it.
#[unsafe(no_mangle)]
pub extern "C" fn lafzimdo_delta_at(
    chunk: &[u8],
    limits: &[u64; 9],
    place: usize,
    out: &mut [u64; 2],
) -> u64
    ensures value { result ≡ status (delta_at limits.now place chunk.now) }
    ensures out_after { out.new ≡ written (delta_at limits.now place chunk.now) out.old }
{
    lafzimdo::part::lafzimdo_delta_at(chunk, limits, place, out)
}

// The anchor that begins at a place, and the place behind it.
#[unsafe(no_mangle)]
pub extern "C" fn lafzimdo_anchor_at(
    chunk: &[u8],
    limits: &[u64; 9],
    place: usize,
    out: &mut [u64; 3],
) -> u64
    ensures value { result ≡ status (anchor_at limits.now place chunk.now) }
    ensures out_after { out.new ≡ written (anchor_at limits.now place chunk.now) out.old }
{
    lafzimdo::part::lafzimdo_anchor_at(chunk, limits, place, out)
}

// The local variable that begins at a place, with its name as it is spelt, and the place behind it.
#[unsafe(no_mangle)]
pub extern "C" fn lafzimdo_local_at(
    chunk: &[u8],
    limits: &[u64; 9],
    place: usize,
    out: &mut [u64; 6],
) -> u64
    ensures value { result ≡ status (local_at limits.now place chunk.now) }
    ensures out_after { out.new ≡ written (local_at limits.now place chunk.now) out.old }
{
    lafzimdo::part::lafzimdo_local_at(chunk, limits, place, out)
}

// The string that begins at a place, and the place behind it.
#[unsafe(no_mangle)]
pub extern "C" fn lafzimdo_string_at(
    chunk: &[u8],
    limits: &[u64; 9],
    place: usize,
    out: &mut [u64; 4],
) -> u64
    ensures value { result ≡ status (string_at limits.now place chunk.now) }
    ensures out_after { out.new ≡ written (string_at limits.now place chunk.now) out.old }
{
    lafzimdo::part::lafzimdo_string_at(chunk, limits, place, out)
}

// Entries of a function.
ghost use Rattle.std.specs.Prelude.{◌≡◌};
ghost use Rattle.format.specs.ReadChunk.{read};
ghost use Rattle.show_row.specs.Asked.{entry_of};
ghost use Rattle.show_entry.specs.Entries.{shown_word, shown_constant, shown_upvalue, shown_delta, shown_anchor, shown_name};
ghost use Rattle.c_boundary.specs.Status.{limits_of, status, written};
ghost use Rattle.lafzimdo.specs.Answers.{ofWord, ofConstant, ofUpvalue, ofDelta, ofAnchor, ofName};

// An instruction word of a function, by their numbers.
#[unsafe(no_mangle)]
pub extern "C" fn lafzimdo_instruction(
    chunk: &[u8],
    limits: &[u64; 9],
    function: usize,
    entry: usize,
    out: &mut [u64; 1],
) -> u64
    ensures value { result ≡ status (ofWord (shown_word (entry_of (λ p. p.instructions) function entry (read (limits_of limits.now) chunk.now)))) }
    ensures out_after { out.new ≡ written (ofWord (shown_word (entry_of (λ p. p.instructions) function entry (read (limits_of limits.now) chunk.now)))) out.old }
{
    lafzimdo::entry::lafzimdo_instruction(chunk, limits, function, entry, out)
}

// A constant of a function, by their numbers: its tag and its value, or where its string stands.
#[unsafe(no_mangle)]
pub extern "C" fn lafzimdo_constant(
    chunk: &[u8],
    limits: &[u64; 9],
    function: usize,
    entry: usize,
    out: &mut [u64; 3],
) -> u64
    ensures value { result ≡ status (ofConstant (shown_constant (entry_of (λ p. p.constants) function entry (read (limits_of limits.now) chunk.now)))) }
    ensures out_after { out.new ≡ written (ofConstant (shown_constant (entry_of (λ p. p.constants) function entry (read (limits_of limits.now) chunk.now)))) out.old }
{
    lafzimdo::entry::lafzimdo_constant(chunk, limits, function, entry, out)
}

// An upvalue of a function, by their numbers: its three bytes.
#[unsafe(no_mangle)]
pub extern "C" fn lafzimdo_upvalue(
    chunk: &[u8],
    limits: &[u64; 9],
    function: usize,
    entry: usize,
    out: &mut [u64; 3],
) -> u64
    ensures value { result ≡ status (ofUpvalue (shown_upvalue (entry_of (λ p. p.upvalues) function entry (read (limits_of limits.now) chunk.now)))) }
    ensures out_after { out.new ≡ written (ofUpvalue (shown_upvalue (entry_of (λ p. p.upvalues) function entry (read (limits_of limits.now) chunk.now)))) out.old }
{
    lafzimdo::entry::lafzimdo_upvalue(chunk, limits, function, entry, out)
}

// A line delta of a function, by their numbers.
#[unsafe(no_mangle)]
pub extern "C" fn lafzimdo_delta(
    chunk: &[u8],
    limits: &[u64; 9],
    function: usize,
    entry: usize,
    out: &mut [u64; 1],
) -> u64
    ensures value { result ≡ status (ofDelta (shown_delta (entry_of (λ p. p.line_info_lem) function entry (read (limits_of limits.now) chunk.now)))) }
    ensures out_after { out.new ≡ written (ofDelta (shown_delta (entry_of (λ p. p.line_info_lem) function entry (read (limits_of limits.now) chunk.now)))) out.old }
{
    lafzimdo::entry::lafzimdo_delta(chunk, limits, function, entry, out)
}

// An anchor of a function, by their numbers: its pc and its line.
#[unsafe(no_mangle)]
pub extern "C" fn lafzimdo_anchor(
    chunk: &[u8],
    limits: &[u64; 9],
    function: usize,
    entry: usize,
    out: &mut [u64; 2],
) -> u64
    ensures value { result ≡ status (ofAnchor (shown_anchor (entry_of (λ p. p.abs_line_info) function entry (read (limits_of limits.now) chunk.now)))) }
    ensures out_after { out.new ≡ written (ofAnchor (shown_anchor (entry_of (λ p. p.abs_line_info) function entry (read (limits_of limits.now) chunk.now)))) out.old }
{
    lafzimdo::entry::lafzimdo_anchor(chunk, limits, function, entry, out)
}

// The name of an upvalue of a function, by their numbers: whether there is one, and where it stands.
#[unsafe(no_mangle)]
pub extern "C" fn lafzimdo_upvalue_name(
    chunk: &[u8],
    limits: &[u64; 9],
    function: usize,
    entry: usize,
    out: &mut [u64; 3],
) -> u64
    ensures value { result ≡ status (ofName (shown_name (entry_of (λ p. p.upvalue_names_lem) function entry (read (limits_of limits.now) chunk.now)))) }
    ensures out_after { out.new ≡ written (ofName (shown_name (entry_of (λ p. p.upvalue_names_lem) function entry (read (limits_of limits.now) chunk.now)))) out.old }
{
    lafzimdo::entry::lafzimdo_upvalue_name(chunk, limits, function, entry, out)
}

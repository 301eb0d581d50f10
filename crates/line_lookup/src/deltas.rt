// Adding deltas to a line.
ghost use Rattle.std.specs.Prelude.{◌≡◌, ◌+◌, ◌^◌, ◌≤◌, length, take, drop};
ghost use Rattle.std.specs.Int.Signed.{mag};
ghost use Rattle.format.specs.Limits.{MOST};
ghost use Rattle.line_lookup.specs.Lines.{raised};
ghost use Rattle.line_lookup.specs.Inner.Scan.{added, summed, start_in, line_from};

use format::entry::AbsLineInfo;
use line_anchors::Scan;

// The deltas up to the pc, or all of them.
pub fn up_to(deltas: &[u8], pc: usize) -> &[u8]
    ensures { result.now ≡ take (pc + 1) deltas.now }
{
    if pc < deltas.len() {
        return &deltas[0..pc + 1];
    }
    deltas
}

// The line behind a delta: -128 leaves it, and a byte above 128 is 256 more than its delta.
fn add_delta(line: i64, delta: u8) -> i64
    requires { mag line ≤ 2 ^ 62 + 2 ^ 32 }
    ensures { result ≡ added line delta }
{
    if delta == 128 {
        return line;
    }
    if delta < 128 {
        return line + delta as i64;
    }
    line - (256 - delta as u64) as i64
}

// Adds the deltas from a pc on.
pub fn add_deltas(deltas: &[u8], from: usize, line: i64) -> i64
    requires { (length deltas.now ≤ MOST) × (mag line ≤ 2 ^ 62) }
    ensures { result ≡ summed line (drop from deltas.now) }
{
    let mut current_line = line;
    for i in from..deltas.len() {
        current_line = add_delta(current_line, deltas[i]);
    }
    current_line
}

// Where the sum begins: behind the last delta that took an anchor's line, if that is not before the base.
fn start_in(scan: Scan) -> AbsLineInfo
    ensures { result ≡ start_in scan }
{
    let base = scan.base;
    let reset = scan.reset;
    if base.pc < reset.pc {
        return reset;
    }
    base
}

// Below 0 gives 0.
pub fn raise(line: i64) -> usize
    ensures { result ≡ raised line }
{
    if line < 0 {
        return 0;
    }
    line as usize
}

// The line that the deltas give, 0 without any.
pub fn line_from(deltas: &[u8], scan: Scan) -> usize
    requires { (length deltas.now ≤ MOST) × ((start_in scan).line ≤ 2 ^ 62) }
    ensures { result ≡ line_from scan deltas.now }
{
    if deltas.len() == 0 {
        return 0;
    }
    let start = start_in(scan);
    raise(add_deltas(deltas, start.pc, start.line as i64))
}

// One pass over a function's anchors: from where deltas are added, and whether a line is too large.
#![tactic(auto)]

ghost use Rattle.std.specs.Prelude.{◌≡◌, true, false, cond, drop};
ghost use Rattle.format.specs.Read.{many};
ghost use Rattle.format.specs.ReadChunk.{anchor};
ghost use Rattle.line_anchors.specs.Inner.Scan.{or_large, still_taking, reset_by, seek_by, passed, start_of, scan_result};

use format::entry::AbsLineInfo;
use format::refusal::Refusal;
use read_entry::debug::read_anchor;
use slice::cursor::Cursor;

// The anchor that has the pc for its number: how many are before it, or its line.
#[derive(Clone, Copy)]
pub enum Sought {
    Ahead(usize),
    At(usize),
}

// What the anchors so far have settled. `base` and `reset` are each a line, and the pc from which deltas are added to it.
#[derive(Clone, Copy)]
pub struct Scan {
    // A line is 2^62 or more.
    pub large: bool,
    // No anchor was above the pc sought.
    pub taking: bool,
    // The last anchor taken, at first pc 0 and the first line.
    pub base: AbsLineInfo,
    // Just behind the last delta of -128 that has an anchor; pc 0 if none has.
    pub reset: AbsLineInfo,
    pub sought: Sought,
}

pub fn or_large(large: bool, line: usize) -> bool
    ensures { result ≡ or_large large line }
{
    if large {
        return true;
    }
    4611686018427387904 <= line
}

fn still_taking(taking: bool, pc: usize, anchor: AbsLineInfo) -> bool
    ensures { result ≡ still_taking taking pc anchor }
{
    if taking {
        return anchor.pc <= pc;
    }
    false
}

fn taken(taking: bool, anchor: AbsLineInfo, base: AbsLineInfo) -> AbsLineInfo
    ensures { result ≡ cond taking anchor base }
{
    if taking {
        return anchor;
    }
    base
}

// Behind the delta at the anchor, if that is -128 and behind the one so far: of two anchors at a pc the first stays.
fn reset_by(deltas: &[u8], reset: AbsLineInfo, anchor: AbsLineInfo) -> AbsLineInfo
    ensures { result ≡ reset_by deltas.now reset anchor }
{
    let pc = anchor.pc;
    if pc >= deltas.len() {
        return reset;
    }
    if deltas[pc] != 128 {
        return reset;
    }
    let behind = pc + 1;
    if behind <= reset.pc {
        return reset;
    }
    AbsLineInfo {
        pc: behind,
        line: anchor.line,
    }
}

fn seek(sought: Sought, line: usize) -> Sought
    ensures { result ≡ seek_by sought line }
{
    match sought {
        Sought::At(_) => sought,
        Sought::Ahead(before) => {
            if before == 0 {
                return Sought::At(line);
            }
            Sought::Ahead(before - 1)
        }
    }
}

fn pass(deltas: &[u8], pc: usize, scan: Scan, anchor: AbsLineInfo) -> Scan
    ensures { result ≡ passed deltas.now pc scan anchor }
{
    let base = scan.base;
    let reset = scan.reset;
    let sought = scan.sought;
    let taking = still_taking(scan.taking, pc, anchor);
    Scan {
        large: or_large(scan.large, anchor.line),
        taking: taking,
        base: taken(taking, anchor, base),
        reset: reset_by(deltas, reset, anchor),
        sought: seek(sought, anchor.line),
    }
}

// Passes over n anchors of the slice. `deltas` are those up to the pc.
pub fn scan_anchors(
    s: &[u8],
    cursor: Cursor,
    n: usize,
    deltas: &[u8],
    pc: usize,
    line_defined: usize,
) -> Result<Scan, Refusal>
    ensures { result ≡ scan_result deltas.now pc (start_of pc line_defined) (many n anchor cursor.at (drop cursor.at s.now)) }
{
    let mut scan = Scan {
        large: 4611686018427387904 <= line_defined,
        taking: true,
        base: AbsLineInfo {
            pc: 0,
            line: line_defined,
        },
        reset: AbsLineInfo { pc: 0, line: 0 },
        sought: Sought::Ahead(pc),
    };
    let mut next = cursor;
    for _ in 0..n {
        let (value, behind) = read_anchor(s, next)?;
        next = behind;
        scan = pass(deltas, pc, scan, value);
    }
    Ok(scan)
}

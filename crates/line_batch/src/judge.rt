// Every decision, before anything is written: 25, 29, 30 and 26, in this order.
ghost use Rattle.std.specs.Prelude.{◌≡◌};
ghost use Rattle.line_batch.specs.Batch.{never_falls, refusal_of};
ghost use Rattle.line_batch.specs.Inner.Anchors.{anchors_of};
ghost use Rattle.line_batch.specs.Inner.Judged.{still_rising, see_by, seen_of, start_seen, judged_by};

use crate::anchors::{Anchors, next_anchor};
use format::entry::AbsLineInfo;
use format::refusal::Refusal;
use line_anchors::or_large;

// What the anchors so far have settled.
#[derive(Clone, Copy)]
pub struct Seen {
    // A line is 2^62 or more.
    pub large: bool,
    // Each pc was above the one before it.
    pub rising: bool,
    // There was one, and its pc.
    pub any: bool,
    pub last: usize,
}

fn is_rising(seen: Seen, pc: usize) -> bool
    ensures { result ≡ still_rising seen pc }
{
    if seen.rising {
        if seen.any {
            return seen.last < pc;
        }
        return true;
    }
    false
}

fn see(seen: Seen, anchor: AbsLineInfo) -> Seen
    ensures { result ≡ see_by seen anchor }
{
    Seen {
        large: or_large(seen.large, anchor.line),
        rising: is_rising(seen, anchor.pc),
        any: true,
        last: anchor.pc,
    }
}

fn see_anchors(s: &[u8], all: Anchors, line_defined: usize) -> Seen
    ensures { result ≡ seen_of (start_seen line_defined) (anchors_of s.now all) }
{
    let mut seen = Seen {
        large: or_large(false, line_defined),
        rising: true,
        any: false,
        last: 0,
    };
    let mut rest = all;
    loop {
        let next = next_anchor(s, rest);
        match next {
            None => return seen,
            Some((anchor, behind)) => {
                seen = see(seen, anchor);
                rest = behind;
            }
        }
    }
}

fn never_falls(pcs: &[u64]) -> bool
    ensures { result ≡ never_falls pcs.now }
{
    let mut last = 0;
    for &pc in pcs {
        if pc < last {
            return false;
        }
        last = pc;
    }
    true
}

// Of a function's anchors and first line, the pcs, and how many lines have room.
pub fn judge(
    s: &[u8],
    all: Anchors,
    line_defined: usize,
    pcs: &[u64],
    space: usize,
) -> Result<(), Refusal>
    ensures { result ≡ judged_by (refusal_of line_defined (anchors_of s.now all) space pcs.now) }
{
    let seen = see_anchors(s, all, line_defined);
    if seen.large {
        return Err(Refusal::LineTooLarge);
    }
    if !seen.rising {
        return Err(Refusal::AnchorOrder);
    }
    if !never_falls(pcs) {
        return Err(Refusal::PcOrder);
    }
    if space < pcs.len() {
        return Err(Refusal::LentSpace);
    }
    Ok(())
}

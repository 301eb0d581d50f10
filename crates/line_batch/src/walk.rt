// The walk over a function's anchors and deltas, from pc to pc.
ghost use Rattle.std.specs.Prelude.{◌≡◌, ◌+◌, ◌-◌, ◌*◌, ◌^◌, ◌≤◌, length, drop};
ghost use Rattle.std.specs.Int.Signed.{mag};
ghost use Rattle.format.specs.Limits.{MOST};
ghost use Rattle.slice.specs.Inner.Splice.{splice};
ghost use Rattle.line_batch.specs.Inner.Walk.{take_step, forward, line_by, lines_from, end_of};
ghost use Rattle.line_batch.specs.Inner.Steps.{step_of, Writable};

use crate::anchors::{Anchors, next_anchor};
use line_lookup::deltas::{add_deltas, raise, up_to};

// Where the walk is.
#[derive(Clone, Copy)]
pub struct Walk {
    // The anchors that are not taken yet.
    pub rest: Anchors,
    // The number of the next delta.
    pub at: usize,
    // The base's line, and the sum of the deltas read from the base on.
    pub from: usize,
    pub sum: i64,
    // How many deltas were read.
    pub read: usize,
}

// Takes anchors while their pc is not above the one sought: the last is the base.
fn take_up(s: &[u8], first: Walk, pc: usize) -> Walk
    ensures { (step_of s.now result ≡ take_step pc (step_of s.now first)) × (mag first.sum ≤ 128 * first.read → mag result.sum ≤ 128 * result.read) }
{
    let mut walk = first;
    loop {
        let rest = walk.rest;
        let next = next_anchor(s, rest);
        match next {
            None => return walk,
            Some((anchor, behind)) => {
                if pc < anchor.pc {
                    return walk;
                }
                let read = walk.read;
                walk = Walk {
                    rest: behind,
                    at: anchor.pc,
                    from: anchor.line,
                    sum: 0,
                    read: read,
                };
            }
        }
    }
}

// How many deltas stand from `at` on.
fn ahead(len: usize, at: usize) -> usize
    ensures { result ≡ len - at }
{
    if at < len {
        return len - at;
    }
    0
}

// One pc further: the anchors up to it are taken, and the deltas up to it that were not read are read.
fn go_on(s: &[u8], deltas: &[u8], first: Walk, pc: usize) -> Walk
    requires { (length deltas.now ≤ MOST) × (first.read ≤ MOST) × (mag first.sum ≤ 128 * first.read) }
    ensures { (step_of s.now result ≡ forward deltas.now pc (step_of s.now first)) × (mag result.sum ≤ 128 * result.read) }
{
    let walk = take_up(s, first, pc);
    let cut = up_to(deltas, pc);
    let rest = walk.rest;
    let at = walk.at;
    let new = ahead(cut.len(), at);
    Walk {
        rest: rest,
        at: at + new,
        from: walk.from,
        sum: add_deltas(cut, at, walk.sum),
        read: walk.read + new,
    }
}

// The line where the walk is, 0 without deltas.
fn line_of(deltas: &[u8], walk: Walk) -> usize
    requires { (walk.from ≤ 2 ^ 62) × (mag walk.sum ≤ 2 ^ 32) }
    ensures { result ≡ line_by deltas.now walk.from walk.sum }
{
    if deltas.len() == 0 {
        return 0;
    }
    raise(walk.from as i64 + walk.sum)
}

// The lines of the pcs from `start` on, each at its place; how many deltas were read.
pub fn write_lines(
    s: &[u8],
    deltas: &[u8],
    first: Walk,
    pcs: &[u64],
    start: usize,
    lines: &mut [u64],
) -> usize
    requires { (length deltas.now ≤ MOST) × (length pcs.now ≤ length lines.old) × (mag first.sum ≤ 128 * first.read) × Writable deltas.now (step_of s.now first) (drop start pcs.now) }
    ensures lines_after { lines.new ≡ splice start (lines_from deltas.now (step_of s.now first) (drop start pcs.now)) lines.old }
    ensures value { result ≡ (end_of deltas.now (step_of s.now first) (drop start pcs.now)).read }
{
    let mut walk = first;
    for k in start..pcs.len() {
        walk = go_on(s, deltas, walk, pcs[k] as usize);
        lines[k] = line_of(deltas, walk) as u64;
    }
    walk.read
}

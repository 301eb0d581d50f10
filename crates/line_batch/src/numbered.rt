// As many anchors as instructions: the lines of the pcs that are below their number, each that of the anchor of its number.
ghost use Rattle.std.specs.Prelude.{◌≡◌, ◌+◌, ◌^◌, ◌≤◌, ◌<◌, length};
ghost use Rattle.slice.specs.Inner.Splice.{splice};
ghost use Rattle.line_batch.specs.Inner.Anchors.{anchors_of};
ghost use Rattle.line_batch.specs.Inner.Numbered.{passed_by, pass_to, numbered_from, none_passed};

use crate::anchors::{Anchors, next_anchor};

// How many anchors were passed, those that are left, and the line of the last one passed.
#[derive(Clone, Copy)]
pub struct Numbered {
    pub rest: Anchors,
    pub number: usize,
    pub line: usize,
}

// Passes anchors up to the one whose number is the pc, which may be passed already.
fn pass_to(s: &[u8], first: Numbered, pc: usize) -> Numbered
    requires { pc + 1 < 2 ^ 64 }
    ensures { passed_by s.now result ≡ pass_to pc (passed_by s.now first) }
{
    let mut z = first;
    while z.number <= pc {
        let rest = z.rest;
        let next = next_anchor(s, rest);
        match next {
            None => return z,
            Some((anchor, behind)) => {
                z = Numbered {
                    rest: behind,
                    number: z.number + 1,
                    line: anchor.line,
                };
            }
        }
    }
    z
}

// Writes their lines at the front; how many there are.
pub fn write_numbered(s: &[u8], all: Anchors, pcs: &[u64], lines: &mut [u64]) -> usize
    requires { length pcs.now ≤ length lines.old }
    ensures lines_after { lines.new ≡ splice 0 (numbered_from all.left (none_passed (anchors_of s.now all)) pcs.now) lines.old }
    ensures value { result ≡ length (numbered_from all.left (none_passed (anchors_of s.now all)) pcs.now) }
{
    let mut z = Numbered {
        rest: all,
        number: 0,
        line: 0,
    };
    for k in 0..pcs.len() {
        let pc = pcs[k] as usize;
        if pc >= all.left {
            return k;
        }
        z = pass_to(s, z, pc);
        lines[k] = z.line as u64;
    }
    pcs.len()
}

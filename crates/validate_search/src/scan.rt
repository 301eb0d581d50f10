// The instructions of one function, up to the next that is not fine.
ghost use Rattle.std.specs.Prelude.{◌≡◌, ◌+◌, length};
ghost use Rattle.validate_search.specs.Inner.Position.{code_left, skip, scanned};

use slice::cursor::{Cursor, remaining};
use slice::little::u32_at;
use validate_rules::finding::{Bounds, Finding};
use validate_rules::glance::{fine_at_a_glance, glance_of};
use validate_rules::judge::judge;

// Where in a function's instructions a search stands: at the instruction `pc`.
#[derive(Clone, Copy)]
pub struct Code {
    pub bounds: Bounds,
    pub function: usize,
    pub place: Cursor,
    pub pc: u32,
}

// The number behind that of the last instruction left: fewer than the function has where the file ends first.
fn code_end(s: &[u8], c: Code) -> u32
    ensures { result ≡ c.pc + length (code_left s.now c) }
{
    let bounds = c.bounds;
    let size = bounds.instructions;
    if size <= c.pc {
        return c.pc;
    }
    let there = remaining(s, c.place) / 4;
    if there < (size - c.pc) as usize {
        return c.pc + there as u32;
    }
    size
}

// The first instruction from here on that is not fine: most are seen to be at a glance. Ruled out: one that is passed over, the last one left out.
pub fn scan(s: &[u8], c: Code) -> Option<(Finding, Option<Finding>, Code)>
    ensures { skip (code_left s.now c) ≡ scanned s.now result }
{
    let end = code_end(s, c);
    if end <= c.pc {
        return None;
    }
    let bounds = c.bounds;
    let function = c.function;
    let glance = glance_of(bounds);
    let registers = glance.registers;
    let masks = glance.masks;
    let limits = glance.limits;
    let mut at = c.place.at;
    for pc in c.pc..end {
        let word = u32_at(s, at);
        if !fine_at_a_glance(word, &registers, &masks, &limits) {
            if let Some((first, second)) = judge(function, bounds, pc, word) {
                let behind = Code {
                    bounds,
                    function,
                    place: Cursor { at: at + 4 },
                    pc: pc + 1,
                };
                return Some((first, second, behind));
            }
        }
        at += 4;
    }
    None
}

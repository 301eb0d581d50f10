// A quick test of an instruction, without a jump for its opcode, so that words of any kind pass at one speed: what they are held against stands in lists, by the opcode's class.
ghost use Rattle.std.specs.Prelude.{◌≡◌, ◌<◌};
ghost use Rattle.validate_rules.specs.Inner.Glance.{Fine, class_of, doubled, glance_of};

use crate::finding::Bounds;
use word_opcodes::opcode::Opcode54;

// By class: the bound of A; which bits are an operand, of those from bit 15 on; their bound.
// (Of two widths: where LLVM sees one list, or three of one width, it makes a jump of an opcode's class, and a word takes twice as long.)
#[derive(Clone, Copy)]
pub struct Glance {
    pub registers: [u32; 6],
    pub masks: [u32; 6],
    pub limits: [usize; 6],
}

// Twice the number of upvalues: a bound of B with the bit below it. (No B is above 255.)
fn double(upvalues: usize) -> usize
    ensures { result ≡ doubled upvalues }
{
    if upvalues < 256 {
        return upvalues * 2;
    }
    512
}

// What the words of a function are held against.
pub fn glance_of(bounds: Bounds) -> Glance
    ensures { result ≡ glance_of bounds }
{
    let size = bounds.maxstacksize as u32;
    let upvalues = double(bounds.upvalues);
    Glance {
        registers: [size, 256, size, size, size, 0],
        masks: [0, 0, 0x1FFFF, 0x1FF, 0x1FFFF, 0],
        limits: [1, 1, bounds.constants, upvalues, bounds.protos, 0],
    }
}

// An opcode's class: A alone is tested, nothing, a constant, an upvalue by B, a prototype, or something else.
fn class_of(op: Opcode54) -> usize
    ensures { (result ≡ class_of op) × (result < 6) }
{
    match op {
        Opcode54::Return0 | Opcode54::Varargprep | Opcode54::Extraarg => 1,
        Opcode54::Loadk => 2,
        Opcode54::Getupval | Opcode54::Setupval | Opcode54::Gettabup => 3,
        Opcode54::Closure => 4,
        Opcode54::Settabup | Opcode54::Jmp => 5,
        _ => 0,
    }
}

// Where it is true, the instruction has no finding. Ruled out: a word without an opcode, A at the stack's size.
pub fn fine_at_a_glance(
    word: u32,
    registers: &[u32; 6],
    masks: &[u32; 6],
    limits: &[usize; 6],
) -> bool
    ensures { Fine registers.now masks.now limits.now word result }
{
    let Some(op) = Opcode54::from_u8((word & 0x7F) as u8) else {
        return false;
    };
    let class = class_of(op);
    if ((word >> 7) & 0xFF) < registers[class] {
        let operand = (word >> 15) & masks[class];
        return (operand as usize) < limits[class];
    }
    false
}

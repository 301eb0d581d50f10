// The numbers of instruction words, as the calls behind C put them into their arrays (include/lafzimdo.h).
#![tactic(auto)]

ghost use Rattle.std.specs.Prelude.{◌≡◌};
ghost use Rattle.word_opcodes.specs.Table.{mode_number};
ghost use Rattle.c_words.specs.Words.{mode_or_none, word_numbers, spelt};

use c_boundary::signed::complement_of_i32;
use word_fields::instruction::RawInstruction54;
use word_opcodes::opcode::{OpMode54, Opcode54};

// C gets an array of numbers, so a mode is one, and 5 stands for none: no `OpMode54` and no `Option` goes there.
fn mode_number(m: OpMode54) -> u64
    ensures { result ≡ mode_number m }
{
    match m {
        OpMode54::IABC => 0,
        OpMode54::IABx => 1,
        OpMode54::IAsBx => 2,
        OpMode54::IAx => 3,
        OpMode54::IsJ => 4,
    }
}

fn mode_or_none(opcode: Option<Opcode54>) -> u64
    ensures { result ≡ mode_or_none opcode }
{
    let Some(op) = opcode else {
        return 5;
    };
    mode_number(op.mode())
}

// The fields of a word. Ruled out: a signed field without its offset, the opcode's number in place of its mode.
pub fn word_numbers(r: RawInstruction54) -> [u64; 12]
    ensures { result ≡ word_numbers r }
{
    let opcode = r.opcode;
    [
        r.opcode_num as u64,
        mode_or_none(opcode),
        r.a as u64,
        r.k as u64,
        r.b as u64,
        complement_of_i32(r.sb),
        r.c as u64,
        complement_of_i32(r.sc),
        r.bx as u64,
        complement_of_i32(r.sbx),
        r.ax as u64,
        complement_of_i32(r.sj),
    ]
}

// A word's fields from numbers: encoding looks at no sB and no sC.
pub fn word_of(
    op: u8,
    a: u8,
    k: u8,
    b: u8,
    c: u8,
    bx: u32,
    sbx: i32,
    ax: u32,
    sj: i32,
) -> RawInstruction54
    ensures { result ≡ spelt op a k b c bx sbx ax sj }
{
    let opcode = Opcode54::from_u8(op);
    RawInstruction54 {
        opcode_num: op,
        opcode,
        a,
        k,
        b,
        sb: 0,
        c,
        sc: 0,
        bx,
        sbx,
        ax,
        sj,
    }
}

// opcodes.rs: an instruction word's fields, and the word of its fields.
ghost use Rattle.std.specs.Prelude.{◌≡◌, ◌+ℤ◌};
ghost use Rattle.word_fields.specs.Word.{decoded, unbiased, encodedIABC, encodedIABx, encodedIAs_bx, encodedIAx, encoded_isJ, encoded};

use format::refusal::Refusal;
use word_opcodes::opcode::{OpMode54, Opcode54};

// The fields of a 32-bit instruction word. From bit 0: opcode 7 bits, A 8, k 1, B 8, C 8; Bx is 17 bits from bit 15, Ax and sJ 25 from bit 7.
#[derive(Clone, Copy)]
pub struct RawInstruction54 {
    pub opcode_num: u8,
    pub opcode: Option<Opcode54>,
    pub a: u8,
    pub k: u8,
    pub b: u8,
    pub sb: i32,
    pub c: u8,
    pub sc: i32,
    pub bx: u32,
    pub sbx: i32,
    pub ax: u32,
    pub sj: i32,
}

impl RawInstruction54 {
    // What a signed field subtracts from the number that its bits spell.
    pub const OFFSET_SB: i32 = (1 << 7) - 1;

    pub const OFFSET_SC: i32 = (1 << 7) - 1;

    pub const OFFSET_SBX: i32 = (1 << 16) - 1;

    pub const OFFSET_SJ: i32 = (1 << 24) - 1;

    // The fields of a word. Ruled out: B read where C stands, sBx with 65,536 taken off.
    pub fn decode(word: u32) -> Self
        ensures { result ≡ decoded word }
    {
        let opcode_num = (word & 0x7F) as u8;
        let opcode = Opcode54::from_u8(opcode_num);
        let a = ((word >> 7) & 0xFF) as u8;
        let k = ((word >> 15) & 0x1) as u8;
        let b = ((word >> 16) & 0xFF) as u8;
        let sb = (b as i32) - Self::OFFSET_SB;
        let c = ((word >> 24) & 0xFF) as u8;
        let sc = (c as i32) - Self::OFFSET_SC;
        let bx = (word >> 15) & 0x1FFFF;
        let sbx = (bx as i32) - Self::OFFSET_SBX;
        let ax = (word >> 7) & 0x1FFFFFF;
        let sj = (ax as i32) - Self::OFFSET_SJ;
        Self {
            opcode_num,
            opcode,
            a,
            k,
            b,
            sb,
            c,
            sc,
            bx,
            sbx,
            ax,
            sj,
        }
    }

    // The word of mode iABC. Ruled out: a word where k is 2; B and C exchanged.
    pub fn encode_iabc(opcode: Opcode54, a: u8, b: u8, c: u8, k: u8) -> Result<u32, Refusal>
        ensures { result ≡ encodedIABC opcode a b c k }
    {
        let num = opcode.number();
        if k < 2 {
            return Ok(
                num as u32
                    | ((a as u32) << 7)
                    | ((k as u32) << 15)
                    | ((b as u32) << 16)
                    | ((c as u32) << 24),
            );
        }
        Err(Refusal::FieldRange)
    }

    // The word of mode iABx. Ruled out: a word where Bx is 131,072; Bx from bit 16 on.
    pub fn encode_iabx(opcode: Opcode54, a: u8, bx: u32) -> Result<u32, Refusal>
        ensures { result ≡ encodedIABx opcode a bx }
    {
        let num = opcode.number();
        if bx < 131072 {
            return Ok(num as u32 | ((a as u32) << 7) | (bx << 15));
        }
        Err(Refusal::FieldRange)
    }

    // The word of mode i_as_bx. Ruled out: a refusal where sBx is 65,536; a word where it is -65,536.
    pub fn encode_iasbx(opcode: Opcode54, a: u8, sbx: i32) -> Result<u32, Refusal>
        ensures { result ≡ encodedIAs_bx opcode a sbx }
    {
        let bx = unbias(sbx, Self::OFFSET_SBX, 131072).ok_or(Refusal::FieldRange)?;
        Self::encode_iabx(opcode, a, bx)
    }

    // The word of mode i_ax. Ruled out: a word where Ax is 33,554,432; Ax from bit 15 on.
    pub fn encode_iax(opcode: Opcode54, ax: u32) -> Result<u32, Refusal>
        ensures { result ≡ encodedIAx opcode ax }
    {
        let num = opcode.number();
        if ax < 33554432 {
            return Ok(num as u32 | (ax << 7));
        }
        Err(Refusal::FieldRange)
    }

    // The word of mode isJ. Ruled out: a refusal where sJ is 16,777,216; a word where it is -16,777,216.
    pub fn encode_isj(opcode: Opcode54, sj: i32) -> Result<u32, Refusal>
        ensures { result ≡ encoded_isJ opcode sj }
    {
        let ax = unbias(sj, Self::OFFSET_SJ, 33554432).ok_or(Refusal::FieldRange)?;
        Self::encode_iax(opcode, ax)
    }

    // The word of the opcode and of the fields that its mode uses; or the refusal NoOpcode, 28, before FieldRange, 27.
    // Ruled out: 27 where there is no opcode; a refusal for a field that the mode does not use.
    #[tactic(auto, unfolding(crate::specs::Word::encoded))]
    pub fn encode(self) -> Result<u32, Refusal>
        ensures { result ≡ encoded self }
    {
        let op = self.opcode.ok_or(Refusal::NoOpcode)?;
        let mode = op.mode();
        match mode {
            OpMode54::IABC => Self::encode_iabc(op, self.a, self.b, self.c, self.k),
            OpMode54::IABx => Self::encode_iabx(op, self.a, self.bx),
            OpMode54::IAsBx => Self::encode_iasbx(op, self.a, self.sbx),
            OpMode54::IAx => Self::encode_iax(op, self.ax),
            OpMode54::IsJ => Self::encode_isj(op, self.sj),
        }
    }
}

// A signed field with its offset added, where that is a natural below the limit: the number that its bits spell.
fn unbias(z: i32, offset: i32, limit: u32) -> Option<u32>
    ensures { result ≡ unbiased (z +ℤ offset) limit }
{
    let sum = z as i64 + offset as i64;
    if sum < 0 {
        return None;
    }
    let n = sum as u64;
    if n < limit as u64 {
        return Some(n as u32);
    }
    None
}

// Instruction words: their fields, and a word from its fields.
ghost use Rattle.std.specs.Prelude.{◌≡◌};
ghost use Rattle.word_fields.specs.Word.{decoded, encoded};
ghost use Rattle.c_boundary.specs.Status.{status, written, in_numbers};
ghost use Rattle.c_words.specs.Words.{word_numbers, spelt, of_encoded};

use c_boundary::answered;
use c_words::{word_numbers, word_of};
use format::refusal::Refusal;
use word_fields::instruction::RawInstruction54;

// All fields of an instruction word, with its opcode and mode. Ruled out: B read where C stands, a mode for a number that is no opcode's.
#[unsafe(no_mangle)]
pub extern "C" fn lafzimdo_decode(word: u32, out: &mut [u64; 12]) -> u64
    ensures value { result ≡ 0 }
    ensures out_after { out.new ≡ word_numbers (decoded word) }
{
    *out = word_numbers(RawInstruction54::decode(word));
    0
}

fn encode_in_numbers(
    op: u8,
    a: u8,
    k: u8,
    b: u8,
    c: u8,
    bx: u32,
    sbx: i32,
    ax: u32,
    sj: i32,
) -> Result<[u64; 1], Refusal>
    ensures { in_numbers result ≡ of_encoded (encoded (spelt op a k b c bx sbx ax sj)) }
{
    let fields = word_of(op, a, k, b, c, bx, sbx, ax, sj);
    let w = fields.encode()?;
    Ok([w as u64])
}

// The instruction word of an opcode and of the fields that its mode uses, or why there is none.
// Ruled out: 27 where there is no opcode, a refusal for a field that the mode does not use.
#[unsafe(no_mangle)]
pub extern "C" fn lafzimdo_encode(
    op: u8,
    a: u8,
    k: u8,
    b: u8,
    c: u8,
    bx: u32,
    sbx: i32,
    ax: u32,
    sj: i32,
    out: &mut [u64; 1],
) -> u64
    ensures value { result ≡ status (of_encoded (encoded (spelt op a k b c bx sbx ax sj))) }
    ensures out_after { out.new ≡ written (of_encoded (encoded (spelt op a k b c bx sbx ax sj))) out.old }
{
    answered(encode_in_numbers(op, a, k, b, c, bx, sbx, ax, sj), out)
}

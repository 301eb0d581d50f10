// Instruction words: their fields, and a word from its fields.
ghost use Rattle.std.specs.Prelude.{◌≡◌};
ghost use Rattle.word_fields.specs.Word.{decoded, encoded};
ghost use Rattle.c_boundary.specs.Status.{status, written};
ghost use Rattle.c_words.specs.Words.{word_numbers, spelt, of_encoded};

// All fields of an instruction word, with its opcode and mode.
#[unsafe(no_mangle)]
pub extern "C" fn lafzimdo_decode(word: u32, out: &mut [u64; 12]) -> u64
    ensures value { result ≡ 0 }
    ensures out_after { out.new ≡ word_numbers (decoded word) }
{
    lafzimdo::word::lafzimdo_decode(word, out)
}

// The instruction word of an opcode and of the fields that its mode uses, or why there is none.
#[unsafe(no_mangle)]
pub extern "C" fn lafzimdo_encode(
    op: u8,
    a: u8,
    k: u8,
    b: u8,
    c: u8,
    bx: u32,
    sbx: i32,
    ax: u32,
    sj: i32,
    out: &mut [u64; 1],
) -> u64
    ensures value { result ≡ status (of_encoded (encoded (spelt op a k b c bx sbx ax sj))) }
    ensures out_after { out.new ≡ written (of_encoded (encoded (spelt op a k b c bx sbx ax sj))) out.old }
{
    lafzimdo::word::lafzimdo_encode(op, a, k, b, c, bx, sbx, ax, sj, out)
}

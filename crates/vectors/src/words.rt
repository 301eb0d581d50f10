// Instruction words.
use lafzimdo::word::{lafzimdo_decode, lafzimdo_encode};
use text_list::Numbers;
use vectors_answer::answer::array;
use vectors_answer::argument::{byte, low, low_signed};

// The fields of a word.
pub fn decode(f: &Numbers, got: &mut Numbers) -> usize {
    let mut out = [0u64; 12];
    let status = lafzimdo_decode(low(f, 0), &mut out);
    array(got, 0, status, &out)
}

// The word that fields make.
pub fn encode(f: &Numbers, got: &mut Numbers) -> usize {
    let mut out = [0u64; 1];
    let status = lafzimdo_encode(
        byte(f, 0),
        byte(f, 1),
        byte(f, 2),
        byte(f, 3),
        byte(f, 4),
        low(f, 5),
        low_signed(f, 6),
        low(f, 7),
        low_signed(f, 8),
        &mut out,
    );
    array(got, 0, status, &out)
}

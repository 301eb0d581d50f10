// The entries of a function's lists, from the first up to the refusal behind the last.
use lafzimdo::entry::{
    lafzimdo_anchor, lafzimdo_constant, lafzimdo_delta, lafzimdo_instruction, lafzimdo_upvalue,
    lafzimdo_upvalue_name,
};
use text_list::{Numbers, ROOM};
use vectors_answer::answer;
use vectors_answer::answer::array;

fn instruction(
    chunk: &[u8],
    limits: &[u64; 9],
    f: usize,
    e: usize,
    got: &mut Numbers,
    at: usize,
) -> usize {
    let mut out = [0u64; 1];
    let status = lafzimdo_instruction(chunk, limits, f, e, &mut out);
    array(got, at, status, &out)
}

fn constant(
    chunk: &[u8],
    limits: &[u64; 9],
    f: usize,
    e: usize,
    got: &mut Numbers,
    at: usize,
) -> usize {
    let mut out = [0u64; 3];
    let status = lafzimdo_constant(chunk, limits, f, e, &mut out);
    answer::constant(got, at, chunk, status, &out)
}

fn upvalue(
    chunk: &[u8],
    limits: &[u64; 9],
    f: usize,
    e: usize,
    got: &mut Numbers,
    at: usize,
) -> usize {
    let mut out = [0u64; 3];
    let status = lafzimdo_upvalue(chunk, limits, f, e, &mut out);
    array(got, at, status, &out)
}

fn delta(
    chunk: &[u8],
    limits: &[u64; 9],
    f: usize,
    e: usize,
    got: &mut Numbers,
    at: usize,
) -> usize {
    let mut out = [0u64; 1];
    let status = lafzimdo_delta(chunk, limits, f, e, &mut out);
    array(got, at, status, &out)
}

fn anchor(
    chunk: &[u8],
    limits: &[u64; 9],
    f: usize,
    e: usize,
    got: &mut Numbers,
    at: usize,
) -> usize {
    let mut out = [0u64; 2];
    let status = lafzimdo_anchor(chunk, limits, f, e, &mut out);
    array(got, at, status, &out)
}

fn name(
    chunk: &[u8],
    limits: &[u64; 9],
    f: usize,
    e: usize,
    got: &mut Numbers,
    at: usize,
) -> usize {
    let mut out = [0u64; 3];
    let status = lafzimdo_upvalue_name(chunk, limits, f, e, &mut out);
    answer::name(got, at, chunk, status, &out)
}

// One entry of the list that a letter means, or none where it means no list.
fn entry(
    kind: u8,
    chunk: &[u8],
    limits: &[u64; 9],
    f: usize,
    e: usize,
    got: &mut Numbers,
    at: usize,
) -> Option<usize> {
    match kind {
        b'i' => Some(instruction(chunk, limits, f, e, got, at)),
        b'k' => Some(constant(chunk, limits, f, e, got, at)),
        b'u' => Some(upvalue(chunk, limits, f, e, got, at)),
        b'd' => Some(delta(chunk, limits, f, e, got, at)),
        b'a' => Some(anchor(chunk, limits, f, e, got, at)),
        b'n' => Some(name(chunk, limits, f, e, got, at)),
        _ => None,
    }
}

// Every entry of the list that a letter means, and the refusal behind the last. A list that is full takes no more.
pub fn entries(
    kind: u8,
    chunk: &[u8],
    limits: &[u64; 9],
    f: usize,
    got: &mut Numbers,
) -> Option<usize> {
    let mut at = 0;
    for e in 0..ROOM {
        let start = at;
        at = entry(kind, chunk, limits, f, e, got, start)?;
        if at >= ROOM || got.get(start) != Some(&0) {
            break;
        }
    }
    Some(at)
}

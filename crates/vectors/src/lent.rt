// The calls that write into lent memory. What is lent is the front of 65,536 places, each 165 before the call;
// behind the answer stand some of the places, and how many were written.
use lafzimdo::finding::lafzimdo_findings;
use lafzimdo::space::{lafzimdo_copy, lafzimdo_index, lafzimdo_local};
use text_list::{Numbers, ROOM};
use vectors_answer::answer::array;
use vectors_answer::lent::shown;

// The archive copy, written into `lent` bytes; then `count` places from `from` on, and how many were written.
pub fn copy(
    chunk: &[u8],
    limits: &[u64; 9],
    lent: usize,
    from: usize,
    count: usize,
    got: &mut Numbers,
) -> usize {
    let mut memory = [165u8; ROOM];
    let at = copy_in(chunk, limits, &mut memory, lent, got);
    shown(got, at, &memory, lent, from, count)
}

fn copy_in(
    chunk: &[u8],
    limits: &[u64; 9],
    memory: &mut [u8],
    lent: usize,
    got: &mut Numbers,
) -> usize {
    if memory.len() < lent {
        return ROOM;
    }
    let mut out = [0u64; 1];
    let status = lafzimdo_copy(chunk, limits, &mut memory[..lent], &mut out);
    array(got, 0, status, &out)
}

// The index, in the same way, written into `lent` numbers of 32 bits.
pub fn index(
    chunk: &[u8],
    limits: &[u64; 9],
    lent: usize,
    from: usize,
    count: usize,
    got: &mut Numbers,
) -> usize {
    let mut memory = [165u32; ROOM];
    let at = index_in(chunk, limits, &mut memory, lent, got);
    shown(got, at, &memory, lent, from, count)
}

fn index_in(
    chunk: &[u8],
    limits: &[u64; 9],
    memory: &mut [u32],
    lent: usize,
    got: &mut Numbers,
) -> usize {
    if memory.len() < lent {
        return ROOM;
    }
    let mut out = [0u64; 1];
    let status = lafzimdo_index(chunk, limits, &mut memory[..lent], &mut out);
    array(got, 0, status, &out)
}

// The findings, in the same way, written into `lent` numbers of 64 bits.
pub fn findings(
    chunk: &[u8],
    limits: &[u64; 9],
    lent: usize,
    from: usize,
    count: usize,
    got: &mut Numbers,
) -> usize {
    let mut memory = [165u64; ROOM];
    let at = findings_in(chunk, limits, &mut memory, lent, got);
    shown(got, at, &memory, lent, from, count)
}

fn findings_in(
    chunk: &[u8],
    limits: &[u64; 9],
    memory: &mut [u64],
    lent: usize,
    got: &mut Numbers,
) -> usize {
    if memory.len() < lent {
        return ROOM;
    }
    let mut out = [0u64; 2];
    let status = lafzimdo_findings(chunk, limits, &mut memory[..lent], &mut out);
    array(got, 0, status, &out)
}

fn local(
    chunk: &[u8],
    limits: &[u64; 9],
    f: usize,
    e: usize,
    lent: usize,
    got: &mut Numbers,
    at: usize,
) -> usize {
    let mut memory = [165u8; ROOM];
    local_in(chunk, limits, f, e, &mut memory, lent, got, at)
}

fn local_in(
    chunk: &[u8],
    limits: &[u64; 9],
    f: usize,
    e: usize,
    memory: &mut [u8],
    lent: usize,
    got: &mut Numbers,
    at: usize,
) -> usize {
    if memory.len() < lent {
        return ROOM;
    }
    let mut out = [0u64; 3];
    let status = lafzimdo_local(chunk, limits, f, e, &mut memory[..lent], &mut out);
    let at = array(got, at, status, &out);
    shown(got, at, memory, lent, 0, out[0] as usize)
}

// The local variables of a function, from the first up to a refusal that is not for want of memory.
pub fn locals(chunk: &[u8], limits: &[u64; 9], f: usize, lent: usize, got: &mut Numbers) -> usize {
    let mut at = 0;
    for e in 0..ROOM {
        let start = at;
        at = local(chunk, limits, f, e, lent, got, start);
        if !matches!(got.get(start), Some(0 | 26)) {
            break;
        }
    }
    at
}

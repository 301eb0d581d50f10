// The exported calls on a chunk as a whole and on a function, their answers as numbers (crate vectors_answer).
use crate::{entries, lent, words};
use lafzimdo::function::{lafzimdo_function, lafzimdo_line};
use lafzimdo::summary::lafzimdo_summary;
use lafzimdo::whole::{lafzimdo_copy_length, lafzimdo_finding_count, lafzimdo_verdict};
use text_list::Numbers;
use vectors_answer::answer;
use vectors_answer::answer::array;

fn summary(chunk: &[u8], limits: &[u64; 9], got: &mut Numbers) -> usize {
    let mut out = [0u64; 15];
    let status = lafzimdo_summary(chunk, limits, &mut out);
    answer::summary(got, chunk, status, &out)
}

// The verdict and the number of findings.
fn totals(chunk: &[u8], limits: &[u64; 9], got: &mut Numbers) -> usize {
    let at = verdict(chunk, limits, got);
    finding_count(chunk, limits, got, at)
}

fn verdict(chunk: &[u8], limits: &[u64; 9], got: &mut Numbers) -> usize {
    let mut out = [0u64; 1];
    let status = lafzimdo_verdict(chunk, limits, &mut out);
    array(got, 0, status, &out)
}

fn finding_count(chunk: &[u8], limits: &[u64; 9], got: &mut Numbers, at: usize) -> usize {
    let mut out = [0u64; 1];
    let status = lafzimdo_finding_count(chunk, limits, &mut out);
    array(got, at, status, &out)
}

// The length of the copy.
fn measure(chunk: &[u8], limits: &[u64; 9], got: &mut Numbers) -> usize {
    let mut out = [0u64; 1];
    let status = lafzimdo_copy_length(chunk, limits, &mut out);
    array(got, 0, status, &out)
}

fn function(chunk: &[u8], limits: &[u64; 9], f: usize, got: &mut Numbers) -> usize {
    let mut out = [0u64; 18];
    let status = lafzimdo_function(chunk, limits, f, &mut out);
    answer::function(got, chunk, status, &out)
}

fn line(
    chunk: &[u8],
    limits: &[u64; 9],
    f: usize,
    pc: usize,
    got: &mut Numbers,
    at: usize,
) -> usize {
    let mut out = [0u64; 1];
    let status = lafzimdo_line(chunk, limits, f, pc, &mut out);
    array(got, at, status, &out)
}

// The lines of `count` instructions, from one on.
fn lines(
    chunk: &[u8],
    limits: &[u64; 9],
    f: usize,
    from: usize,
    count: usize,
    got: &mut Numbers,
) -> usize {
    let mut at = 0;
    for pc in (from..=usize::MAX).take(count) {
        at = line(chunk, limits, f, pc, got, at);
    }
    at
}

// The lines of three instructions that no function has.
fn far_lines(chunk: &[u8], limits: &[u64; 9], f: usize, got: &mut Numbers) -> usize {
    let at = line(chunk, limits, f, 4294967296, got, 0);
    let at = line(chunk, limits, f, 9223372036854775808, got, at);
    line(chunk, limits, f, 18446744073709551615, got, at)
}

// What a letter asks, with its arguments: how many numbers the answer has, or none where the letter means no call.
pub fn ask(
    kind: u8,
    chunk: &[u8],
    limits: &[u64; 9],
    args: &Numbers,
    got: &mut Numbers,
) -> Option<usize> {
    match kind {
        b's' => Some(summary(chunk, limits, got)),
        b't' => Some(totals(chunk, limits, got)),
        b'm' => Some(measure(chunk, limits, got)),
        b'g' => Some(vectors_records::findings(chunk, limits, got)),
        _ => ask_word(kind, chunk, limits, args, got),
    }
}

// The letters that are about an instruction word.
fn ask_word(
    kind: u8,
    chunk: &[u8],
    limits: &[u64; 9],
    args: &Numbers,
    got: &mut Numbers,
) -> Option<usize> {
    match kind {
        b'w' => Some(words::decode(args, got)),
        b'e' => Some(words::encode(args, got)),
        _ => ask_range(kind, chunk, limits, args, got),
    }
}

// The letters with two or three arguments.
fn ask_range(
    kind: u8,
    chunk: &[u8],
    limits: &[u64; 9],
    args: &Numbers,
    got: &mut Numbers,
) -> Option<usize> {
    let a = args[0] as usize;
    let b = args[1] as usize;
    let c = args[2] as usize;
    match kind {
        b'p' => Some(lines(chunk, limits, a, b, c, got)),
        b'l' => Some(lent::locals(chunk, limits, a, b, got)),
        b'c' => Some(lent::copy(chunk, limits, a, b, c, got)),
        b'r' => Some(lent::index(chunk, limits, a, b, c, got)),
        b'v' => Some(lent::findings(chunk, limits, a, b, c, got)),
        _ => ask_function(kind, chunk, limits, a, got),
    }
}

// The letters with a function.
fn ask_function(
    kind: u8,
    chunk: &[u8],
    limits: &[u64; 9],
    f: usize,
    got: &mut Numbers,
) -> Option<usize> {
    match kind {
        b'f' => Some(function(chunk, limits, f, got)),
        b'o' => Some(far_lines(chunk, limits, f, got)),
        _ => entries::entries(kind, chunk, limits, f, got),
    }
}

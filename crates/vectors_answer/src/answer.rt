// What a call returns, and where that is 0 the numbers of its array.
use text_list::{Numbers, numbers, push};

// What is returned, and where that is 0 the array.
pub fn array(got: &mut Numbers, at: usize, status: u64, out: &[u64]) -> usize {
    let at = push(got, at, status);
    if status != 0 {
        return at;
    }
    numbers(got, at, out, 0, out.len())
}

// A string: its length, then its bytes, which are taken from the chunk.
fn string(got: &mut Numbers, at: usize, chunk: &[u8], place: u64, len: u64) -> usize {
    let at = push(got, at, len);
    numbers(got, at, chunk, place as usize, len as usize)
}

// Of a summary the array, and the trailing bytes.
pub fn summary(got: &mut Numbers, chunk: &[u8], status: u64, out: &[u64; 15]) -> usize {
    let at = array(got, 0, status, out);
    if status != 0 {
        return at;
    }
    numbers(got, at, chunk, out[8] as usize, out[9] as usize)
}

// Of a function the array, with the bytes of its source.
pub fn function(got: &mut Numbers, chunk: &[u8], status: u64, out: &[u64; 18]) -> usize {
    let at = push(got, 0, status);
    if status != 0 {
        return at;
    }
    let at = numbers(got, at, out, 0, 3);
    let at = string(got, at, chunk, out[3], out[4]);
    numbers(got, at, out, 5, 13)
}

// Of a constant its kind, and its bytes or its value.
pub fn constant(got: &mut Numbers, at: usize, chunk: &[u8], status: u64, out: &[u64; 3]) -> usize {
    let at = push(got, at, status);
    if status != 0 {
        return at;
    }
    let at = push(got, at, out[0]);
    if out[0] % 16 == 4 {
        return string(got, at, chunk, out[1], out[2]);
    }
    push(got, at, out[1])
}

// Of a name whether there is one, and its bytes.
pub fn name(got: &mut Numbers, at: usize, chunk: &[u8], status: u64, out: &[u64; 3]) -> usize {
    let at = push(got, at, status);
    if status != 0 {
        return at;
    }
    let at = push(got, at, out[0]);
    string(got, at, chunk, out[1], out[2])
}

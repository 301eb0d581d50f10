// The numbers of a request.
use text_list::Numbers;

// An argument, and its low bits.
fn argument(f: &Numbers, i: usize) -> u64 {
    f.get(i).copied().unwrap_or(0)
}

pub fn byte(f: &Numbers, i: usize) -> u8 {
    (argument(f, i) & 0xff) as u8
}

pub fn low(f: &Numbers, i: usize) -> u32 {
    (argument(f, i) & 0xffff_ffff) as u32
}

pub fn low_signed(f: &Numbers, i: usize) -> i32 {
    low(f, i).cast_signed()
}

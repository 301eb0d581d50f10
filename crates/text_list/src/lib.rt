// Lists of numbers, put together from numbers and from parts of memory. A list that is full takes no more, and
// nothing is asked of a caller. Memory is lent with 165 in every place, so that it shows what a call wrote.
#![tactic(auto)]

ghost use Rattle.std.specs.Prelude.{◌≡◌, ℕ, ◌+◌, ◌-◌, ◌≤◌, ◌<◌, ◌==◌, not, min};
ghost use Rattle.std.specs.Prelude.{set, map, take, drop, length, get_or, count_by};

// How many numbers a list has room for.
pub const ROOM: usize = 65536;

pub type Numbers = [u64; ROOM];

// One number more: how many there are then.
pub fn push(list: &mut Numbers, at: usize, x: u64) -> usize
    ensures value { at < 65536 → (result ≡ at + 1) × (list.new ≡ set list.old at x) }
    ensures value_2 { 65536 ≤ at → (result ≡ at) × (list.new ≡ list.old) }
{
    if at < ROOM {
        list[at] = x;
        return at + 1;
    }
    at
}

// Numbers of one width, as memory holds them.
pub trait Number: Copy {
    // Its value, whatever its width.
    ghost value: { Self → ℕ };

    // The same as a number of a list.
    fn number(self) -> u64
        ensures { result ≡ value self };
}

impl Number for u8 {
    ghost value = { λ x. x };

    fn number(self) -> u64 {
        self as u64
    }
}

impl Number for u32 {
    ghost value = { λ x. x };

    fn number(self) -> u64 {
        self as u64
    }
}

impl Number for u64 {
    ghost value = { λ x. x };

    fn number(self) -> u64 {
        self
    }
}

// Up to `count` places of some memory, from one place on.
fn part<T: Number>(memory: &[T], from: usize, count: usize) -> &[T]
    ensures { result.now ≡ take count (drop from memory.now) }
{
    let start = from.min(memory.len());
    let behind = &memory[start..];
    &behind[..count.min(behind.len())]
}

// The numbers of such a part, pushed one behind the other.
pub fn numbers<T: Number>(
    list: &mut Numbers,
    at: usize,
    memory: &[T],
    from: usize,
    count: usize,
) -> usize
    ensures end { result ≡ at + min (65536 - at) (length (take count (drop from memory.now))) }
    ensures before { (k : ℕ) → k < at → get_or list.new k 0 ≡ get_or list.old k 0 }
    ensures numbers { (k : ℕ) → at + k < result
        → get_or list.new (at + k) 0 ≡ get_or (map T.value (take count (drop from memory.now))) k 0 }
{
    let mut end = at;
    let taken = part(memory, from, count);
    for x in taken {
        end = push(list, end, x.number());
    }
    end
}

// How many places of lent memory, and of the 64 behind it, are no longer as they were.
pub fn written<T: Number>(memory: &[T], lent: usize) -> u64
    ensures { result ≡ count_by (λ x. not (T.value x == 165)) (take (min (lent + 64) 18446744073709551615) memory.now) }
{
    let looked_at = part(memory, 0, lent.saturating_add(64));
    looked_at.iter().filter(|x| x.number() != 165).count() as u64
}

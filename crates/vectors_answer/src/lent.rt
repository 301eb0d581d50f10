// Lent memory behind an answer: `count` places from `from` on, and how many were written.
use text_list::{Number, Numbers, numbers, push, written};

// Memory of which `lent` places were lent.
pub fn shown<T: Number>(
    got: &mut Numbers,
    at: usize,
    memory: &[T],
    lent: usize,
    from: usize,
    count: usize,
) -> usize {
    let at = numbers(got, at, memory, from, count);
    push(got, at, written(memory, lent))
}

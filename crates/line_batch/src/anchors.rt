// A function's anchors, one after the other.
ghost use Rattle.std.specs.Prelude.{◌≡◌};
ghost use Rattle.line_batch.specs.Inner.Anchors.{anchors_of, next_list};

use format::entry::AbsLineInfo;
use read_entry::debug::read_anchor;
use slice::cursor::Cursor;

// The next anchor, and how many are left.
#[derive(Clone, Copy)]
pub struct Anchors {
    pub next: Cursor,
    pub left: usize,
}

// The first of them, with the rest. None where one cannot be read: in a chunk that was judged that is not met.
pub fn next_anchor(s: &[u8], from: Anchors) -> Option<(AbsLineInfo, Anchors)>
    ensures { anchors_of s.now from ≡ next_list s.now result }
{
    if from.left == 0 {
        return None;
    }
    let next = from.next;
    let read = read_anchor(s, next);
    match read {
        Err(_) => None,
        Ok((value, behind)) => Some((
            value,
            Anchors {
                next: behind,
                left: from.left - 1,
            },
        )),
    }
}

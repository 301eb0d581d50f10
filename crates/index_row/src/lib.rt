// The numbers of a function, stored.
#![tactic(auto)]

ghost use Rattle.std.specs.Prelude.{◌≡◌, [], ◌∷◌, ◌+◌, ◌*◌, ◌≤◌, length};
ghost use Rattle.slice.specs.Inner.Splice.{splice};
ghost use Rattle.index_row.specs.Inner.Stored.{COLUMNS, low, stored_head, stored_places, stored_tail};

use read_prototype::pass::{HeadCounts, TailCounts};

// How many numbers an index has of each function.
pub const COLUMNS: usize = 14;

// The low 32 bits: in a chunk that is read no number of the index has more.
fn narrow(x: usize) -> u32
    ensures { result ≡ low x }
{
    (x % 4294967296) as u32
}

// Stores four numbers from `at` on.
fn put_four(rows: &mut [u32], at: usize, a: usize, b: usize, c: usize, d: usize)
    requires { at + 4 ≤ length rows.old }
    ensures { rows.new ≡ splice at (low a ∷ low b ∷ low c ∷ low d ∷ []) rows.old }
{
    rows[at] = narrow(a);
    rows[at + 1] = narrow(b);
    rows[at + 2] = narrow(c);
    rows[at + 3] = narrow(d);
}

// Stores two numbers from `at` on.
fn put_two(rows: &mut [u32], at: usize, a: usize, b: usize)
    requires { at + 2 ≤ length rows.old }
    ensures { rows.new ≡ splice at (low a ∷ low b ∷ []) rows.old }
{
    rows[at] = narrow(a);
    rows[at + 1] = narrow(b);
}

// Stores of the row of the function of this number what is known before the functions that nest in it, where there is room for the row: a walk that calls itself then keeps
// none of it. Its end is not known yet, and its start stands there. Ruled out: a count or a place in another's column, the row of one function in another's place.
pub fn put_head(
    rows: &mut [u32],
    number: usize,
    start: usize,
    depth: usize,
    parent: usize,
    head: HeadCounts,
)
    ensures { COLUMNS * number + COLUMNS ≤ length rows.old → rows.new ≡ splice (COLUMNS * number + 12) (stored_places head) (splice (COLUMNS * number) (stored_head start start depth parent head) rows.old) }
{
    if rows.len() / COLUMNS <= number {
        return;
    }
    let at = COLUMNS * number;
    put_four(rows, at, start, start, depth, parent);
    put_four(
        rows,
        at + 4,
        head.instructions,
        head.constants,
        head.upvalues,
        head.protos,
    );
    put_two(rows, at + 12, head.instructions_at, head.constants_at);
}

// Stores the rest of the row. Ruled out: the same, an end that stays the start.
pub fn put_tail(rows: &mut [u32], number: usize, end: usize, tail: TailCounts)
    ensures { COLUMNS * number + COLUMNS ≤ length rows.old → rows.new ≡ splice (COLUMNS * number + 1) (low end ∷ []) (splice (COLUMNS * number + 8) (stored_tail tail) rows.old) }
{
    if number < rows.len() / COLUMNS {
        let at = COLUMNS * number;
        put_four(
            rows,
            at + 8,
            tail.line_info,
            tail.abs_line_info,
            tail.loc_vars,
            tail.upvalue_names,
        );
        rows[at + 1] = narrow(end);
    }
}

// The findings of a chunk, one at a time, by value: a position goes in, and a finding and the next position come out.
ghost use Rattle.std.specs.Prelude.{◌≡◌, ℕ, ◌<◌, ◌+◌, ◌≤◌, List, ◌||◌, ltb, length};
ghost use Rattle.format.specs.Limits.{MOST};
ghost use Rattle.validate_rules.specs.Inner.Judged.{as_list};
ghost use Rattle.validate_search.specs.Inner.Position.{code_at, next_number, row_bounds, groups_left, any_left, of_rows, out_of, goes_on, stepped, start_position};

use crate::scan::{Code, scan};
use format::limits::ResourceLimits;
use read_field::field::read_u32_le;
use read_next::{COUNTS, Levels, Row, any_function, go_down, next_function};
use slice::cursor::Cursor;
use validate_rules::finding::{Bounds, Finding};

// The state of a search.
#[derive(Clone, Copy)]
pub struct Position {
    // The functions left at each level, the level here, and the place behind the last head that was read.
    pub left: Levels,
    pub depth: usize,
    pub at: Cursor,
    // The number of the next function.
    pub number: usize,
    // The rest of the instructions of the function whose head was read last.
    pub code: Code,
    // The diagnostics so far, with the reading's warnings and the finding that waits.
    pub found: u64,
    pub waiting: Option<Finding>,
}

// The next finding and the position behind it, or the end.
#[derive(Clone, Copy)]
pub enum Step {
    Found(Finding, Position),
    // There are no more; true: there are so many that the search stopped.
    Done(bool),
}

// The number behind k. (It stays at the largest, which no chunk reaches.)
fn next_number(k: usize) -> usize
    ensures { result ≡ next_number k }
{
    if k < 18446744073709551615 {
        return k + 1;
    }
    k
}

// What a function's instructions are held against.
fn bounds_of(row: Row) -> Bounds
    requires { row.instructions ≤ MOST }
    ensures { result ≡ row_bounds row }
{
    Bounds {
        maxstacksize: row.sizes.maxstacksize,
        instructions: row.instructions as u32,
        constants: row.constants,
        upvalues: row.upvalues,
        protos: row.protos,
    }
}

// The number of diagnostics with one more and with what waits.
fn counted(n: u64, w: Option<Finding>) -> u64
    requires { n < 4294967296 }
    ensures { result ≡ n + (1 + length (as_list w)) }
{
    match w {
        None => n + 1,
        Some(_) => n + 2,
    }
}

// Whether there is a function left.
fn function_left(s: &[u8], limits: ResourceLimits, p: Position) -> bool
    ensures { result ≡ any_left (of_rows limits s.now p) }
{
    let left = p.left;
    let at = p.at;
    any_function(s, limits, &left, p.depth, at)
}

// Whether there is an instruction or a function left.
fn any_left(s: &[u8], limits: ResourceLimits, p: Position) -> bool
    ensures { result ≡ any_left (groups_left limits s.now p) }
{
    let code = p.code;
    let bounds = code.bounds;
    if bounds.instructions <= code.pc {
        return function_left(s, limits, p);
    }
    read_u32_le(s, code.place).is_ok() || function_left(s, limits, p)
}

// The next finding, where nothing waits and there is room for one.
fn search(s: &[u8], limits: ResourceLimits, max: u32, p: Position) -> Step
    requires { (p.found < max) × (limits.max_total_instructions ≤ MOST) }
    ensures { goes_on limits s.now max p ≡ stepped limits s.now max result }
{
    let mut left = p.left;
    let mut depth = p.depth;
    let mut at = p.at;
    let mut number = p.number;
    let mut code = p.code;
    loop {
        if let Some((first, second, behind)) = scan(s, code) {
            let n = counted(p.found, second);
            let next = Position {
                left,
                depth,
                at,
                number,
                code: behind,
                found: n,
                waiting: second,
            };
            return Step::Found(first, next);
        }
        let Some((row, d, first)) = next_function(s, limits, &left, depth, at) else {
            return Step::Done(false);
        };
        go_down(&mut left, d, row.protos);
        depth = d + 1;
        at = first;
        code = enter(row, number);
        number = next_number(number);
    }
}

// Before the first instruction of a function.
fn enter(row: Row, function: usize) -> Code
    requires { row.instructions ≤ MOST }
    ensures { result ≡ code_at (row_bounds row) function row.instructions_at 0 }
{
    let bounds = bounds_of(row);
    Code {
        bounds: bounds,
        function: function,
        place: Cursor {
            at: row.instructions_at,
        },
        pc: 0,
    }
}

// The next finding, and the position behind it. The maximum is tested before each function and instruction.
// Ruled out: the test after them, a finding that waits and is lost.
pub fn advance(s: &[u8], limits: ResourceLimits, max: u32, p: Position) -> Step
    requires { limits.max_total_instructions ≤ MOST }
    ensures { out_of limits s.now max p ≡ stepped limits s.now max result }
{
    if let Some(finding) = p.waiting {
        let next = Position { waiting: None, ..p };
        return Step::Found(finding, next);
    }
    if max as u64 <= p.found {
        return Step::Done(stops(s, limits, max, p));
    }
    search(s, limits, max, p)
}

// Whether a search that has reached the maximum stops: something is left, or there are more than that.
fn stops(s: &[u8], limits: ResourceLimits, max: u32, p: Position) -> bool
    ensures { result ≡ any_left (groups_left limits s.now p) || ltb max p.found }
{
    if any_left(s, limits, p) {
        return true;
    }
    (max as u64) < p.found
}

// The position before everything: main is left at the top level, at a place, behind so many diagnostics.
#[tactic(auto, unfolding(crate::specs::Inner::Position::start_position))]
pub fn start(place: Cursor, kept: u64) -> Position
    ensures { result ≡ start_position place.at kept }
{
    let mut left = [0; COUNTS];
    left[0] = 1;
    Position {
        left,
        depth: 0,
        at: place,
        number: 0,
        code: Code {
            bounds: Bounds {
                maxstacksize: 0,
                instructions: 0,
                constants: 0,
                upvalues: 0,
                protos: 0,
            },
            function: 0,
            place: place,
            pc: 0,
        },
        found: kept,
        waiting: None,
    }
}

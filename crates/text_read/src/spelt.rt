// The numbers of a line, from a place on: decimal; `x` and hexadecimal digits stand for a number for each byte; behind
// `=` stand those that are wanted.
ghost use Rattle.std.specs.Prelude.{◌≤◌, length};

use crate::number::pair;
use crate::token;
use text_list::Numbers;

// How far the line is read, how many numbers stand before the `=`, where there is one, and how many there are in all.
#[derive(Clone, Copy)]
pub struct Spelt {
    pub at: usize,
    pub from: Option<usize>,
    pub to: usize,
}

// Reads the numbers of a line, from `start` on, into `want`: in each turn a word or the spaces behind it. None where a
// word spells no number.
pub fn numbers(line: &[u8], start: usize, want: &mut Numbers) -> Option<Spelt> {
    let mut s = Spelt {
        at: start,
        from: None,
        to: 0,
    };
    for _ in line {
        match line.get(s.at) {
            None => break,
            Some(b' ') => s.at += spaces(&line[s.at..]),
            Some(_) => s = word(line, want, s)?,
        }
    }
    Some(s)
}

// How many spaces come first.
fn spaces(rest: &[u8]) -> usize
    ensures { result ≤ length rest.now }
{
    rest.iter().take_while(|b| **b == b' ').count()
}

// One word more, or nothing at the line's end.
fn word(line: &[u8], want: &mut Numbers, s: Spelt) -> Option<Spelt> {
    match line.get(s.at) {
        None => Some(s),
        Some(b'=') => Some(Spelt {
            at: s.at + 1,
            from: Some(s.to),
            ..s
        }),
        Some(b'x') => {
            let (from, end) = token::next(line, s.at + 1)?;
            let to = bytes(&line[from..end], want, s.to)?;
            Some(Spelt { at: end, to, ..s })
        }
        Some(_) => {
            let (n, next) = token::unsigned(line, s.at, u64::MAX)?;
            let to = text_list::push(want, s.to, n);
            Some(Spelt { at: next, to, ..s })
        }
    }
}

// Two digits for each byte: how many numbers there are then.
fn bytes(word: &[u8], want: &mut Numbers, to: usize) -> Option<usize> {
    let (pairs, odd) = word.as_chunks::<2>();
    let mut to = to;
    for [high, low] in pairs {
        to = text_list::push(want, to, u64::from(pair(*high, *low)?));
    }
    // Asked last: a call without arguments finds in `want` what an earlier line left there.
    if odd.is_empty() { Some(to) } else { None }
}

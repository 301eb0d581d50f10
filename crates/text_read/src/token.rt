// The words of a line, one space between two of them.
ghost use Rattle.std.specs.Prelude.{◌≡◌, ◌≤◌, length, IfSome};
ghost use Rattle.text_read.specs.Inner.Tokens.{word_length, word_at, number_at};

use crate::number;

// Where the word that begins at `at` begins and ends, or none where the line has ended before it. The next word begins
// behind the space, one further than the end.
pub fn next(line: &[u8], at: usize) -> Option<(usize, usize)>
    ensures inside { IfSome result (λ w. (w.0 ≤ w.1) × (w.1 ≤ length line.now)) }
    ensures value { result ≡ word_at line.now at }
{
    let rest = line.get(at..)?;
    Some((at, at + word_length(rest)))
}

// How many bytes come before the first space.
fn word_length(rest: &[u8]) -> usize
    ensures value { result ≡ word_length rest.now }
    ensures bound { result ≤ length rest.now }
{
    rest.iter().take_while(|b| **b != b' ').count()
}

// The decimal number that begins at `at`, at most `most`, and where the next word begins.
pub fn unsigned(line: &[u8], at: usize, most: u64) -> Option<(u64, usize)>
    ensures most_at { IfSome result (λ n. n.0 ≤ most) }
    ensures value { result ≡ number_at most line.now at }
{
    let (from, to) = next(line, at)?;
    let n = number::unsigned(&line[from..to], 10, most)?;
    Some((n, to + 1))
}

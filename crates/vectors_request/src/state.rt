// What is kept from one line to the next, and counted.
use std::io;
use std::io::Write;
use vectors_compare::{Tally, agrees, counted, differed};

// The length of the chunk that is asked about; how many lines were read; how many answers agreed and how many differed.
#[derive(Clone, Copy)]
pub struct State {
    pub len: usize,
    pub lines: u64,
    pub tally: Tally,
}

// A line that is no request.
pub fn bad<W: Write>(output: &mut W, s: State) -> io::Result<State> {
    vectors_report::no_request(output, s.lines)?;
    Ok(one_differs(s))
}

// A line that is too long.
pub fn long<W: Write>(output: &mut W, s: State) -> io::Result<State> {
    vectors_report::too_long(output, s.lines)?;
    Ok(one_differs(s))
}

fn one_differs(s: State) -> State {
    State {
        tally: differed(s.tally),
        ..s
    }
}

// Holds an answer of n numbers against those that are wanted, and counts it.
pub fn judged<W: Write>(
    output: &mut W,
    want: &[u64],
    from: usize,
    to: usize,
    got: &[u64],
    n: usize,
    s: State,
) -> io::Result<State> {
    if !agrees(want, from, to, got, n) {
        vectors_report::difference(output, s.lines, want, from, to, got, n)?;
    }
    Ok(State {
        tally: counted(s.tally, want, from, to, got, n),
        ..s
    })
}

// One line more.
pub fn next_line(s: State) -> State {
    State {
        lines: s.lines.saturating_add(1),
        ..s
    }
}

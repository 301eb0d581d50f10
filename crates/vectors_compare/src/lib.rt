// Lists of numbers held against each other: whether they are the same, where they first differ, and how often they did.
#![tactic(auto)]

ghost use Rattle.std.specs.Prelude.{◌≡◌, true, ℕ, ◌+◌, ◌≤◌, ◌<◌, length, get_or};
ghost use Rattle.vectors_compare.specs.Inner.Parts.{Alike, Fitting};

// The first place at which two lists differ, or the end of the shorter one.
// Ruled out: a place behind the first difference, a place where they agree.
pub fn first_difference(a: &[u64], b: &[u64]) -> usize
    ensures upper_bound { (result ≤ length a.now) × (result ≤ length b.now) }
    ensures by_index { (k : ℕ) → k < result → get_or a.now k 0 ≡ get_or b.now k 0 }
    ensures fact { result < length a.now → result < length b.now → get_or a.now result 0 ≡ get_or b.now result 0 → ⊥ }
{
    for (i, x) in a.iter().enumerate() {
        if b.get(i) != Some(x) {
            return i;
        }
    }
    a.len()
}

// Whether two lists are the same.
// Ruled out: a comparison that cannot fail, one that stops before the end, lengths that are not compared.
fn same(a: &[u64], b: &[u64]) -> bool
    ensures { (result ≡ true → a.now ≡ b.now) × (a.now ≡ b.now → result ≡ true) }
{
    a == b
}

// Whether the first n numbers that came are those that are wanted, from one place to another. A list that is full
// may have been cut, and agrees with none.
// The places stand beside the lists, and not slices: whether a list is full is part of what is asked.
// Ruled out: an answer that is not compared, or only as far as it goes.
pub fn agrees(want: &[u64], from: usize, to: usize, got: &[u64], n: usize) -> bool
    ensures fitting { result ≡ true → Fitting want.now from to got.now n × Alike want.now from to got.now n }
    ensures value { Fitting want.now from to got.now n → Alike want.now from to got.now n → result ≡ true }
{
    from <= to && to < want.len() && n < got.len() && same(&want[from..to], &got[..n])
}

// How many answers agreed, and how many differed.
#[derive(Clone, Copy)]
pub struct Tally {
    pub agree: u64,
    pub differ: u64,
}

// One more that agrees.
fn agreed(t: Tally) -> Tally
    ensures differ_value { result.differ ≡ t.differ }
    ensures agree_value { t.agree < 18446744073709551615 → result.agree ≡ t.agree + 1 }
{
    Tally {
        agree: t.agree.saturating_add(1),
        ..t
    }
}

// One more that differs.
pub fn differed(t: Tally) -> Tally
    ensures agree_value { result.agree ≡ t.agree }
    ensures differ_value { t.differ < 18446744073709551615 → result.differ ≡ t.differ + 1 }
{
    Tally {
        differ: t.differ.saturating_add(1),
        ..t
    }
}

// Counts an answer of n numbers, held against those that are wanted.
// Ruled out: an answer that differs and is not counted so, one that agrees and is counted as a difference.
pub fn counted(t: Tally, want: &[u64], from: usize, to: usize, got: &[u64], n: usize) -> Tally
    ensures agree_value { (Fitting want.now from to got.now n × Alike want.now from to got.now n → ⊥)
        → result.agree ≡ t.agree }
    ensures differ_value { (Fitting want.now from to got.now n × Alike want.now from to got.now n → ⊥)
        → t.differ < 18446744073709551615 → result.differ ≡ t.differ + 1 }
    ensures differ_value_2 { Fitting want.now from to got.now n → Alike want.now from to got.now n
        → result.differ ≡ t.differ }
    ensures agree_value_2 { Fitting want.now from to got.now n → Alike want.now from to got.now n
        → t.agree < 18446744073709551615 → result.agree ≡ t.agree + 1 }
{
    if agrees(want, from, to, got, n) {
        return agreed(t);
    }
    differed(t)
}

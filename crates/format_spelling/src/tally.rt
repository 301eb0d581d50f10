// Places counted while a chunk is read. The counts stand in lent memory and are written only where something is spelt otherwise, so that counting costs next to nothing where nothing is.
ghost use Rattle.std.specs.Prelude.{◌≡◌};
ghost use Rattle.format_spelling.specs.Spelling as spec;
ghost use Rattle.format_spelling.specs.Inner.Tally.{of_number, counts, Fits};

use format::spelling::Spelling;

// Padded numbers, strings that the copy fills, sources that it drops, and those of them that are the parent's.
pub type Tally = [usize; 4];

// Counts further places. No count exceeds the bytes passed over, so the sums fit. Ruled out: two counts exchanged, a count set in place of added to.
pub fn add(tally: &mut Tally, more: Spelling)
    requires { Fits (counts tally.old) more }
    ensures { counts tally.new ≡ spec.◌⊕◌ (counts tally.old) more }
{
    *tally = [
        tally[0] + more.padded,
        tally[1] + more.filled,
        tally[2] + more.sources,
        tally[3] + more.repeated,
    ];
}

// Counts a number, where it is padded. Ruled out: a number counted that is not padded.
pub fn add_number(tally: &mut Tally, padded: bool)
    requires { Fits (counts tally.old) (of_number padded) }
    ensures { counts tally.new ≡ spec.◌⊕◌ (counts tally.old) (of_number padded) }
{
    if padded {
        add(
            tally,
            Spelling {
                padded: 1,
                filled: 0,
                sources: 0,
                repeated: 0,
            },
        );
    }
}

// What was counted.
pub fn spelling_of(tally: &Tally) -> Spelling
    ensures { result ≡ counts tally.now }
{
    Spelling {
        padded: tally[0],
        filled: tally[1],
        sources: tally[2],
        repeated: tally[3],
    }
}

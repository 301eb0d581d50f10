// The length of a number's shortest spelling, from a table by its leading zeros.
ghost use Rattle.std.specs.Prelude.{◌≡◌, ◌≤◌, length};
ghost use Rattle.std.proofs.Math.Option.{some};
ghost use Rattle.std.proofs.Math.ListN.{get_elem?};
ghost use Rattle.format.specs.Shortest.{shortest};
ghost use Rattle.copy_put.specs.Lengths.{lengths};

// The table. A match and no constant array: that is a value, stored anew at each call; of this the compiler makes 65 numbers in read-only memory, of which a call loads one.
// Ruled out: a length for one bit more or less, 0 bytes for 0.
#[tactic(auto, unfolding(crate::specs::Lengths::lengths))]
fn length_at(zeros: u32) -> usize
    requires { zeros ≤ 64 }
    ensures { get_elem? lengths zeros ≡ some result }
{
    match zeros {
        0 => 10,
        1 => 9,
        2 => 9,
        3 => 9,
        4 => 9,
        5 => 9,
        6 => 9,
        7 => 9,
        8 => 8,
        9 => 8,
        10 => 8,
        11 => 8,
        12 => 8,
        13 => 8,
        14 => 8,
        15 => 7,
        16 => 7,
        17 => 7,
        18 => 7,
        19 => 7,
        20 => 7,
        21 => 7,
        22 => 6,
        23 => 6,
        24 => 6,
        25 => 6,
        26 => 6,
        27 => 6,
        28 => 6,
        29 => 5,
        30 => 5,
        31 => 5,
        32 => 5,
        33 => 5,
        34 => 5,
        35 => 5,
        36 => 4,
        37 => 4,
        38 => 4,
        39 => 4,
        40 => 4,
        41 => 4,
        42 => 4,
        43 => 3,
        44 => 3,
        45 => 3,
        46 => 3,
        47 => 3,
        48 => 3,
        49 => 3,
        50 => 2,
        51 => 2,
        52 => 2,
        53 => 2,
        54 => 2,
        55 => 2,
        56 => 2,
        57 => 1,
        58 => 1,
        59 => 1,
        60 => 1,
        61 => 1,
        62 => 1,
        63 => 1,
        64 => 1,
        // No number of 64 bits has more: nobody asks.
        _ => 0,
    }
}

// How many bytes the shortest spelling of v takes.
// Ruled out: 0 bytes for 0, the length of another number of leading zeros.
pub fn varint_len(v: u64) -> usize
    ensures { result ≡ length (shortest v) }
{
    length_at(u64::leading_zeros(v))
}

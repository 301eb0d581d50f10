// A string as numbers: whether it is there, its place, its length.
ghost use Rattle.std.specs.Prelude.{◌≡◌};
ghost use Rattle.c_entries.specs.EntryNumbers.{present_number, place_number, length_number, string_numbers};

use read_field::string::StringAt;

// 1 where there is a string, else 0.
pub fn present_number(t: Option<StringAt>) -> u64
    ensures { result ≡ present_number t }
{
    match t {
        None => 0,
        Some(_) => 1,
    }
}

// Where a string stands; 0 where there is none.
pub fn place_number(t: Option<StringAt>) -> u64
    ensures { result ≡ place_number t }
{
    match t {
        None => 0,
        Some(at) => at.place as u64,
    }
}

// A string's length; 0 where there is none.
pub fn length_number(t: Option<StringAt>) -> u64
    ensures { result ≡ length_number t }
{
    match t {
        None => 0,
        Some(at) => at.len as u64,
    }
}

// The three numbers of a string that may be absent: whether it is there, its place, its length.
pub fn string_numbers(t: Option<StringAt>) -> [u64; 3]
    ensures { result ≡ string_numbers t }
{
    [present_number(t), place_number(t), length_number(t)]
}

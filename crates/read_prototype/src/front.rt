// What stands at the front of a function: its source, its lines and three bytes.
ghost use Rattle.std.specs.Prelude.{◌≡◌, drop};
ghost use Rattle.format_spelling.specs.Inner.Tally.{Room, Adds};
ghost use Rattle.read_prototype.specs.Front.{lines, sizes, front};
ghost use Rattle.read_prototype.specs.PartsSpelt as spelt;
ghost use Rattle.read_prototype.specs.Inner.Results.{lines_result, sizes_result, front_result};

use format::refusal::Refusal;
use format_spelling::tally::Tally;
use read_field::field::read_u8;
use read_field::string::{StringAt, tally_string};
use read_field::varint::tally_varint;
use slice::cursor::Cursor;

// The lines between which a function is defined.
#[derive(Clone, Copy)]
pub struct Lines {
    pub line_defined: usize,
    pub last_line_defined: usize,
}

fn read_lines(s: &[u8], cursor: Cursor, tally: &mut Tally) -> Result<(Lines, Cursor), Refusal>
    requires { Room tally.old cursor.at }
    ensures value { result ≡ lines_result (lines cursor.at (drop cursor.at s.now)) }
    ensures adds { Adds (lines cursor.at (drop cursor.at s.now)) (spelt.lines cursor.at (drop cursor.at s.now)) tally.old tally.new }
{
    let (line_defined, behind) = tally_varint(s, cursor, tally)?;
    let (last_line_defined, next) = tally_varint(s, behind, tally)?;
    let lines = Lines {
        line_defined: line_defined as usize,
        last_line_defined: last_line_defined as usize,
    };
    Ok((lines, next))
}

// The three bytes of a function.
#[derive(Clone, Copy)]
pub struct Sizes {
    pub numparams: u8,
    pub is_vararg: u8,
    pub maxstacksize: u8,
}

fn read_sizes(s: &[u8], cursor: Cursor) -> Result<(Sizes, Cursor), Refusal>
    ensures { result ≡ sizes_result (sizes cursor.at (drop cursor.at s.now)) }
{
    let (numparams, behind) = read_u8(s, cursor)?;
    let (is_vararg, further) = read_u8(s, behind)?;
    let (maxstacksize, next) = read_u8(s, further)?;
    Ok((
        Sizes {
            numparams,
            is_vararg,
            maxstacksize,
        },
        next,
    ))
}

#[derive(Clone, Copy)]
pub struct Front {
    pub source: Option<StringAt>,
    pub lines: Lines,
    pub sizes: Sizes,
}

// A function from its source to its three bytes. Ruled out: an absent source that is shown as empty, the two lines exchanged.
pub fn read_front(
    s: &[u8],
    cursor: Cursor,
    max_string_bytes: usize,
    tally: &mut Tally,
) -> Result<(Front, Cursor), Refusal>
    requires { Room tally.old cursor.at }
    ensures value { result ≡ front_result (front max_string_bytes cursor.at (drop cursor.at s.now)) }
    ensures adds { Adds (front max_string_bytes cursor.at (drop cursor.at s.now)) (spelt.front max_string_bytes cursor.at (drop cursor.at s.now)) tally.old tally.new }
{
    let (source, behind) = tally_string(s, cursor, max_string_bytes, tally)?;
    let (lines, further) = read_lines(s, behind, tally)?;
    let (sizes, next) = read_sizes(s, further)?;
    Ok((
        Front {
            source,
            lines,
            sizes,
        },
        next,
    ))
}

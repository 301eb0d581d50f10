// A function's debug information: anchors and local variables.
ghost use Rattle.std.specs.Prelude.{◌≡◌, drop};
ghost use Rattle.format.specs.ReadChunk.{anchor};
ghost use Rattle.read_entry.specs.Readers.{raw_local};
ghost use Rattle.read_entry.specs.Shown.{anchor_result, local_result};

use format::entry::AbsLineInfo;
use format::refusal::Refusal;
use read_field::string::{StringAt, read_string_lua54};
use read_field::varint::read_value;
use slice::cursor::Cursor;

// A local variable as it is spelt: its name, if it has one, and the two numbers between which it is live.
#[derive(Clone, Copy)]
pub struct LocalAt {
    pub name: Option<StringAt>,
    pub startpc: usize,
    pub endpc: usize,
}

// Reads an anchor: its pc and its line. Ruled out: pc and line exchanged, the place behind pc given as the next.
pub fn read_anchor(s: &[u8], cursor: Cursor) -> Result<(AbsLineInfo, Cursor), Refusal>
    ensures { result ≡ anchor_result (anchor cursor.at (drop cursor.at s.now)) }
{
    let (pc, behind) = read_value(s, cursor)?;
    let (line, next) = read_value(s, behind)?;
    Ok((
        AbsLineInfo {
            pc: pc as usize,
            line: line as usize,
        },
        next,
    ))
}

// Reads a local variable: its name and the two numbers between which it is live. Ruled out: an absent name given as an empty one, startpc and endpc exchanged.
pub fn read_local(
    s: &[u8],
    cursor: Cursor,
    max_string_bytes: usize,
) -> Result<(LocalAt, Cursor), Refusal>
    ensures { result ≡ local_result (raw_local max_string_bytes cursor.at (drop cursor.at s.now)) }
{
    let (name, behind) = read_string_lua54(s, cursor, max_string_bytes)?;
    let (startpc, further) = read_value(s, behind)?;
    let (endpc, next) = read_value(s, further)?;
    Ok((
        LocalAt {
            name,
            startpc: startpc as usize,
            endpc: endpc as usize,
        },
        next,
    ))
}

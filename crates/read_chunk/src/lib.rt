// chunk.rs, `decode_chunk_lua54`: a whole chunk, judged in one pass, how it is spelt, and the row of one function.
#![tactic(auto)]

pub mod summary;

ghost use Rattle.std.specs.Prelude.{◌≡◌};
ghost use Rattle.read_chunk.specs.Inner.Opening.{before_main, opened, opening_result};

use format::header::{Header, Warning};
use format::limits::ResourceLimits;
use format::refusal::Refusal;
use read_field::field::read_u8;
use read_header::parse_header_lua54;
use slice::cursor::Cursor;

// Where main begins, in every chunk that is read.
pub const MAIN_AT: usize = 32;

// What stands before main: what the header shows, the header's warning, and where main begins.
#[derive(Clone, Copy)]
pub struct Opening {
    pub header: Header,
    pub warning: Option<Warning>,
    pub next: Cursor,
}

// The header, and the byte behind it, which is forgotten.
fn read_before_main(s: &[u8]) -> Result<Opening, Refusal>
    ensures { result ≡ opening_result (before_main 0 s.now) }
{
    let (header, warning, behind) = parse_header_lua54(s, Cursor { at: 0 })?;
    let (_, next) = read_u8(s, behind)?;
    Ok(Opening {
        header,
        warning,
        next,
    })
}

// A chunk up to main, under limits. Ruled out: limits above their ceilings taken, a warning that is lost.
pub fn open_chunk(s: &[u8], limits: ResourceLimits) -> Result<Opening, Refusal>
    ensures { result ≡ opening_result (opened limits s.now) }
{
    if !limits.within_ceilings() {
        return Err(Refusal::LimitAboveCeiling);
    }
    if limits.max_input_bytes < s.len() {
        return Err(Refusal::InputBytes);
    }
    read_before_main(s)
}

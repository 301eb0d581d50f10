// What a whole chunk shows: its summary, how it is spelt, and the row of one function.
ghost use Rattle.std.specs.Prelude.{Some, None};
ghost use Rattle.std.specs.Prelude.{◌≡◌, cond, ◌++◌, ltb, eqb, take};
ghost use Rattle.format.specs.declared.header.Warning.TheVariants as code;
ghost use Rattle.format.specs.ReadChunk as format;
ghost use Rattle.format_spelling.specs.ReadSpelling.{spelling};
ghost use Rattle.read_chunk.specs.Decoded.{shown_warnings};
ghost use Rattle.read_chunk.specs.Inner.Decoded.{spelt_result, judged_result, decoded_result, list_of, summary_shown};

use crate::{Opening, open_chunk};
use format::header::{Header, Warning};
use format::limits::ResourceLimits;
use format::refusal::Refusal;
use format::spelling::Spelling;
use format_spelling::tally::spelling_of;
use read_find::find::find_row;
use read_prototype::row::FunctionRow;
use read_walk::walk::{Skimmed, skim_main};
use slice::cursor::{Cursor, remaining};

// The warnings of a reading, in their order: there are at most two.
#[derive(Clone, Copy)]
pub struct Warnings {
    pub first: Option<Warning>,
    pub second: Option<Warning>,
}

#[derive(Clone, Copy)]
pub struct Summary {
    pub header: Header,
    pub warnings: Warnings,
    pub functions: usize,
    pub trailing_at: usize,
    pub trailing_len: usize,
}

// The summary, and the row of the function that was wanted, if there is one of that number.
#[derive(Clone, Copy)]
pub struct Decoded {
    pub summary: Summary,
    pub row: Option<FunctionRow>,
}

// The warning of this index, where the limit leaves room for it.
fn kept(index: usize, limit: usize, warning: Option<Warning>) -> Option<Warning>
    ensures { result ≡ cond (ltb index limit) warning None }
{
    if index < limit { warning } else { None }
}

// The warnings of the header and of the trailing bytes, as many as the limit leaves.
fn in_order(limit: usize, of_header: Option<Warning>, of_trailing: Option<Warning>) -> Warnings
    ensures { result ≡ shown_warnings (take limit (list_of of_header ++ list_of of_trailing)) }
{
    match of_header {
        Some(_) => Warnings {
            first: kept(0, limit, of_header),
            second: kept(1, limit, of_trailing),
        },
        None => Warnings {
            first: kept(0, limit, of_trailing),
            second: None,
        },
    }
}

// Trailing bytes are a warning, at the first of them.
fn trailing_warning(at: usize, len: usize) -> Option<Warning>
    ensures { result ≡ cond (eqb len 0) None (Some (code.TrailingBytes at)) }
{
    if len == 0 {
        None
    } else {
        Some(Warning::TrailingBytes(at))
    }
}

// The summary of a chunk whose functions end at a place.
fn summarised(
    s: &[u8],
    max_diagnostics: usize,
    opening: Opening,
    next: Cursor,
    functions: usize,
) -> Summary
    ensures { result ≡ summary_shown s.now max_diagnostics opening next functions }
{
    let len = remaining(s, next);
    let trailing = trailing_warning(next.at, len);
    let of_header = opening.warning;
    let warnings = in_order(max_diagnostics, of_header, trailing);
    let header = opening.header;
    Summary {
        header: header,
        warnings: warnings,
        functions: functions,
        trailing_at: next.at,
        trailing_len: len,
    }
}

// Judges a whole chunk under limits, in one pass, and shows how it is spelt, but no function: where it is read, main begins at byte 32 (proofs/MainAt.antt).
// Ruled out: limits above their ceilings taken, trailing bytes that are shown and not warned of, how main alone is spelt.
pub fn judge_spelling(s: &[u8], limits: ResourceLimits) -> Result<(Summary, Spelling), Refusal>
    ensures { result ≡ spelt_result (spelling limits s.now) (format.read limits s.now) }
{
    let opening = open_chunk(s, limits)?;
    let from = Skimmed {
        next: opening.next,
        number: 0,
        instructions: 0,
    };
    let mut tally = [0usize; 4];
    let skimmed = skim_main(s, limits, limits.max_nesting_depth, from, &mut tally)?;
    let summary = summarised(
        s,
        limits.max_diagnostics,
        opening,
        skimmed.next,
        skimmed.number,
    );
    let spelling = spelling_of(&tally);
    Ok((summary, spelling))
}

// The same, for callers that show nothing of the spelling. Ruled out: a chunk refused for how it is spelt.
pub fn judge_chunk(s: &[u8], limits: ResourceLimits) -> Result<Summary, Refusal>
    ensures { result ≡ judged_result (format.read limits s.now) }
{
    let (summary, _) = judge_spelling(s, limits)?;
    Ok(summary)
}

// Judges a whole chunk: its summary and the row of the function that is wanted, or the refusal. Ruled out: a count of functions without main.
pub fn decode_chunk_lua54(
    s: &[u8],
    limits: ResourceLimits,
    wanted: usize,
) -> Result<Decoded, Refusal>
    ensures { result ≡ decoded_result wanted (format.read limits s.now) }
{
    let opening = open_chunk(s, limits)?;
    let (walked, row) = find_row(s, limits, wanted, opening.next)?;
    let summary = summarised(
        s,
        limits.max_diagnostics,
        opening,
        walked.next,
        walked.number,
    );
    Ok(Decoded { summary, row })
}

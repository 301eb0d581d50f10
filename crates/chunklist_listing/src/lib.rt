// What `chunklist` prints of a file: a line for the chunk and one for each of its functions, or a refusal.
#![tactic(auto)]

pub mod file;

ghost use Rattle.std.specs.Prelude.{◌≡◌, ◌++◌, ◌≤◌, length, take, IfOk};
ghost use Rattle.format.specs.Limits.{MOST};
ghost use Rattle.text_print.specs.Output.{Fits, waiting, puts, Printed};
ghost use Rattle.format.specs.ReadChunk.{read};
ghost use Rattle.read_next.specs.Inner.Rows.{chunk_rows};
ghost use Rattle.chunklist_listing.specs.Listing as listings;
ghost use Rattle.chunklist_listing.specs.Inner.Rows.{lines_of, row_lines};

use chunklist_lines::{first_line, function_line, refusal_line};
use format::limits::ResourceLimits;
use read_chunk::MAIN_AT;
use read_chunk::summary::judge_chunk;
use read_next::{COUNTS, go_down, next_function};
use slice::cursor::Cursor;
use std::io;
use std::io::Write;
use text_print::Out;
use validate_rules::finding::Verdict;
use validate_verdict::verdict::chunk_verdict;

// The longest file that is read.
const LONGEST: usize = 49152;

fn list_limits() -> ResourceLimits
    ensures { result ≡ listings.list_limits }
{
    let top = ResourceLimits::ceilings();
    ResourceLimits {
        max_input_bytes: LONGEST,
        max_nesting_depth: top.max_nesting_depth,
        max_total_prototypes: top.max_total_prototypes,
        max_instructions_per_proto: top.max_instructions_per_proto,
        max_total_instructions: top.max_total_instructions,
        max_constants_per_proto: top.max_constants_per_proto,
        max_upvalues_per_proto: top.max_upvalues_per_proto,
        max_string_bytes: top.max_string_bytes,
        max_diagnostics: top.max_diagnostics,
    }
}

// A line for each of the n functions, of which the first begins at a place.
fn function_lines<W: Write>(
    s: &[u8],
    limits: ResourceLimits,
    start: Cursor,
    n: usize,
    to: &mut W,
    out: &mut Out,
    used: usize,
) -> io::Result<usize>
    requires max_total_instructions_bound { (limits.max_total_instructions ≤ MOST) × (length (chunk_rows limits s.now start.at) ≡ n) }
    requires fits { Fits used }
    ensures fits_2 { IfOk result (λ after. Fits after) }
    ensures result_after { IfOk result (λ after. waiting out.new after
        ≡ puts (row_lines 0 (chunk_rows limits s.now start.at)) (waiting out.old used)) }
    ensures given { Printed (W.contents to.old) (W.contents to.new)
        (take used out.old ++ row_lines 0 (chunk_rows limits s.now start.at)) out.new result }
{
    let mut left = [0; COUNTS];
    left[0] = 1;
    let mut depth = 0;
    let mut at = start;
    let mut number = 0;
    let mut used = used;
    while let Some((row, d, first)) = next_function(s, limits, &left, depth, at) {
        used = function_line(to, out, used, number, row)?;
        go_down(&mut left, d, row.protos);
        depth = d + 1;
        at = first;
        number += 1;
    }
    Ok(used)
}

// All that is printed of a file. Ruled out: trailing bytes not counted, every function shown at depth 0.
pub fn listing<W: Write>(s: &[u8], to: &mut W, out: &mut Out, used: usize) -> io::Result<usize>
    requires { Fits used }
    ensures fits { IfOk result (λ after. Fits after) }
    ensures result_after { IfOk result (λ after. waiting out.new after
        ≡ puts (listings.listing s.now) (waiting out.old used)) }
    ensures given { Printed (W.contents to.old) (W.contents to.new)
        (take used out.old ++ listings.listing s.now) out.new result }
{
    let limits = list_limits();
    match chunk_verdict(s, limits) {
        Err(why) => refusal_line(to, out, used, why),
        Ok(verdict) => chunk_lines(s, limits, verdict, to, out, used),
    }
}

// A chunk that is read, and the verdict on it.
fn chunk_lines<W: Write>(
    s: &[u8],
    limits: ResourceLimits,
    verdict: Verdict,
    to: &mut W,
    out: &mut Out,
    used: usize,
) -> io::Result<usize>
    requires { Fits used }
    ensures fits { IfOk result (λ after. Fits after) }
    ensures result_after { IfOk result (λ after. waiting out.new after
        ≡ puts (lines_of (length s.now) verdict (read limits s.now)) (waiting out.old used)) }
    ensures given { Printed (W.contents to.old) (W.contents to.new)
        (take used out.old ++ lines_of (length s.now) verdict (read limits s.now)) out.new result }
{
    let Ok(summary) = judge_chunk(s, limits) else {
        // Never: it was read for the verdict.
        return Ok(used);
    };
    let n = summary.functions;
    let used = first_line(to, out, used, s.len(), n, summary.trailing_len, verdict)?;
    let start = Cursor { at: MAIN_AT };
    function_lines(s, limits, start, n, to, out, used)
}

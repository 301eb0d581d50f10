// The lines of a listing. Each printer answers how many bytes wait in the buffer then (crate text_print). Where the
// writer fails, so does the printer.
#![tactic(auto)]

ghost use Rattle.std.specs.Prelude.{◌≡◌, ◌++◌, length, take, IfOk};
ghost use Rattle.text_print.specs.Output.{Fits, waiting, puts, Printed};
ghost use Rattle.validate_rules.specs.Findings.{verdict_word};
ghost use Rattle.chunklist_lines.specs.Lines.{decimal, spaced, first_line, at_place, refusal_line};
ghost use Rattle.chunklist_lines.specs.Inner.Rows.{row_line};

use format::refusal::Refusal;
use format_report::report_refusal;
use read_next::Row;
use std::io;
use std::io::Write;
use text_print::Out;
use validate_rules::finding::Verdict;

// A number behind a label.
fn labelled<W: Write>(
    to: &mut W,
    out: &mut Out,
    used: usize,
    label: &[u8],
    n: u64,
) -> io::Result<usize>
    requires { Fits used }
    ensures fits { IfOk result (λ after. Fits after) }
    ensures result_after { IfOk result (λ after. waiting out.new after
        ≡ puts (label.now ++ decimal n) (waiting out.old used)) }
    ensures given { Printed (W.contents to.old) (W.contents to.new)
        (take used out.old ++ (label.now ++ decimal n)) out.new result }
{
    let at = text_print::text(to, out, used, label)?;
    text_print::decimal(to, out, at, n)
}

// A number, nine more, and a newline.
fn numbers<W: Write>(
    to: &mut W,
    out: &mut Out,
    used: usize,
    first: u64,
    more: &[u64; 9],
) -> io::Result<usize>
    requires { Fits used × (length more.now ≡ 9) }
    ensures fits { IfOk result (λ after. Fits after) }
    ensures result_after { IfOk result (λ after. waiting out.new after
        ≡ puts (decimal first ++ spaced more.now) (waiting out.old used)) }
    ensures given { Printed (W.contents to.old) (W.contents to.new)
        (take used out.old ++ (decimal first ++ spaced more.now)) out.new result }
{
    let mut at = text_print::decimal(to, out, used, first)?;
    for x in more {
        at = labelled(to, out, at, b" ", *x)?;
    }
    text_print::text(to, out, at, b"\n")
}

// The line of a function.
pub fn function_line<W: Write>(
    to: &mut W,
    out: &mut Out,
    used: usize,
    number: usize,
    row: Row,
) -> io::Result<usize>
    requires { Fits used }
    ensures fits { IfOk result (λ after. Fits after) }
    ensures result_after { IfOk result (λ after. waiting out.new after
        ≡ puts (row_line number row) (waiting out.old used)) }
    ensures given { Printed (W.contents to.old) (W.contents to.new)
        (take used out.old ++ row_line number row) out.new result }
{
    let more = [
        row.depth as u64,
        row.lines.line_defined as u64,
        row.lines.last_line_defined as u64,
        row.sizes.numparams as u64,
        row.sizes.is_vararg as u64,
        row.sizes.maxstacksize as u64,
        row.instructions as u64,
        row.constants as u64,
        row.upvalues as u64,
    ];
    numbers(to, out, used, number as u64, &more)
}

// 01's word for a verdict.
fn verdict_word<W: Write>(
    to: &mut W,
    out: &mut Out,
    used: usize,
    verdict: Verdict,
) -> io::Result<usize>
    requires { Fits used }
    ensures fits { IfOk result (λ after. Fits after) }
    ensures result_after { IfOk result (λ after. waiting out.new after
        ≡ puts (verdict_word verdict) (waiting out.old used)) }
    ensures given { Printed (W.contents to.old) (W.contents to.new)
        (take used out.old ++ verdict_word verdict) out.new result }
{
    match verdict {
        Verdict::ValidForAnalysis => text_print::text(to, out, used, b"valid-for-analysis"),
        Verdict::Invalid => text_print::text(to, out, used, b"invalid"),
        Verdict::Incomplete => text_print::text(to, out, used, b"incomplete"),
    }
}

// The line of a chunk that is read.
pub fn first_line<W: Write>(
    to: &mut W,
    out: &mut Out,
    used: usize,
    bytes: usize,
    functions: usize,
    trailing: usize,
    verdict: Verdict,
) -> io::Result<usize>
    requires { Fits used }
    ensures fits { IfOk result (λ after. Fits after) }
    ensures result_after { IfOk result (λ after. waiting out.new after
        ≡ puts (first_line bytes functions trailing verdict) (waiting out.old used)) }
    ensures given { Printed (W.contents to.old) (W.contents to.new)
        (take used out.old ++ first_line bytes functions trailing verdict) out.new result }
{
    let at = labelled(to, out, used, b"chunk ", bytes as u64)?;
    let at = labelled(to, out, at, b" functions ", functions as u64)?;
    let at = labelled(to, out, at, b" trailing ", trailing as u64)?;
    let at = text_print::text(to, out, at, b" verdict ")?;
    let at = verdict_word(to, out, at, verdict)?;
    text_print::text(to, out, at, b"\n")
}

// The place of a refusal, if it has one.
fn at_place<W: Write>(
    to: &mut W,
    out: &mut Out,
    used: usize,
    place: Option<usize>,
) -> io::Result<usize>
    requires { Fits used }
    ensures fits { IfOk result (λ after. Fits after) }
    ensures result_after { IfOk result (λ after. waiting out.new after ≡ puts (at_place place) (waiting out.old used)) }
    ensures given { Printed (W.contents to.old) (W.contents to.new)
        (take used out.old ++ at_place place) out.new result }
{
    match place {
        Some(at) => labelled(to, out, used, b" at ", at as u64),
        None => Ok(used),
    }
}

// The line of a refusal.
pub fn refusal_line<W: Write>(
    to: &mut W,
    out: &mut Out,
    used: usize,
    why: Refusal,
) -> io::Result<usize>
    requires { Fits used }
    ensures fits { IfOk result (λ after. Fits after) }
    ensures result_after { IfOk result (λ after. waiting out.new after
        ≡ puts (refusal_line why) (waiting out.old used)) }
    ensures given { Printed (W.contents to.old) (W.contents to.new)
        (take used out.old ++ refusal_line why) out.new result }
{
    let report = report_refusal(why);
    let place = report.place;
    let at = labelled(to, out, used, b"refused ", report.number as u64)?;
    let at = at_place(to, out, at, place)?;
    text_print::text(to, out, at, b"\n")
}

// What every call behind C uses: limits, refusals and signed numbers as numbers of 64 bits.
#![tactic(auto)]

pub mod signed;

ghost use Rattle.std.specs.Prelude.{◌≡◌, [], ◌∷◌};
ghost use Rattle.c_boundary.specs.Status.{limits_of, with_place, coded, status, written, admits, in_numbers};

use format::limits::ResourceLimits;
use format::refusal::Refusal;
use format_report::report_refusal;

// The nine limits in the order of `ResourceLimits`.
pub fn limits_of(l: &[u64; 9]) -> ResourceLimits
    ensures { result ≡ limits_of l.now }
{
    ResourceLimits {
        max_input_bytes: l[0] as usize,
        max_nesting_depth: l[1] as usize,
        max_total_prototypes: l[2] as usize,
        max_instructions_per_proto: l[3] as usize,
        max_total_instructions: l[4] as usize,
        max_constants_per_proto: l[5] as usize,
        max_upvalues_per_proto: l[6] as usize,
        max_string_bytes: l[7] as usize,
        max_diagnostics: l[8] as usize,
    }
}

fn with_place(number: u32, place: Option<usize>) -> u64
    ensures { result ≡ with_place number place }
{
    match place {
        None => number as u64,
        Some(at) => {
            if 4294967296 <= at {
                return number as u64;
            }
            number as u64 + 256 * (at as u64 + 1)
        }
    }
}

// A refusal as one number. Ruled out: the place left out, two refusals with one number.
pub fn refused(q: Refusal) -> u64
    ensures { result ≡ coded q }
{
    let report = report_refusal(q);
    let place = report.place;
    with_place(report.number as u32, place)
}

// The limits, or 21 where one is above its ceiling, or 22 where the chunk is longer than the input limit. Ruled out: 22 before 21, a chunk as long as the limit refused.
pub fn admit(chunk: &[u8], limits: &[u64; 9]) -> Result<ResourceLimits, Refusal>
    ensures { result ≡ admits (limits_of limits.now) chunk.now }
{
    let l = limits_of(limits);
    if !l.within_ceilings() {
        return Err(Refusal::LimitAboveCeiling);
    }
    if l.max_input_bytes < chunk.len() {
        return Err(Refusal::InputBytes);
    }
    Ok(l)
}

// An answer handed over to C: 0 and its numbers in the lent array, or its refusal as one number and the array as it was.
// Ruled out: an array that is touched where the answer is a refusal, 0 for a refusal.
pub fn answered<const N: usize>(answer: Result<[u64; N], Refusal>, out: &mut [u64; N]) -> u64
    ensures value { result ≡ status (in_numbers answer.entry) }
    ensures out_after { out.new ≡ written (in_numbers answer.entry) out.old }
{
    match answer {
        Err(q) => refused(q),
        Ok(numbers) => {
            *out = numbers;
            0
        }
    }
}

// One number in an array, and two.
pub fn one(n: u64) -> [u64; 1]
    ensures { result ≡ n ∷ [] }
{
    [n]
}

// Two numbers as an array.
pub fn two(n: u64, m: u64) -> [u64; 2]
    ensures { result ≡ n ∷ m ∷ [] }
{
    [n, m]
}

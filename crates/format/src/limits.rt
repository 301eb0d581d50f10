// limits.rs: the resource limits under which a chunk is read, and the ceiling of each.
ghost use Rattle.std.specs.Prelude.{◌≡◌, leb, ◌&&◌};
ghost use Rattle.format.specs.Limits.{ceilings, within_ceilings};

// The ceiling of nesting, and that of lengths and counts (by the same names in specs/Limits.antt).
pub const DEEPEST: usize = 14;

pub const MOST: usize = 16777216;

// The limits of a reading, with the names of the Rust.
#[derive(Clone, Copy)]
pub struct ResourceLimits {
    pub max_input_bytes: usize,
    pub max_nesting_depth: usize,
    pub max_total_prototypes: usize,
    pub max_instructions_per_proto: usize,
    pub max_total_instructions: usize,
    pub max_constants_per_proto: usize,
    pub max_upvalues_per_proto: usize,
    pub max_string_bytes: usize,
    pub max_diagnostics: usize,
}

impl ResourceLimits {
    // Each limit at its ceiling: the largest that a caller may ask for.
    pub fn ceilings() -> ResourceLimits
        ensures { result ≡ ceilings }
    {
        ResourceLimits {
            max_input_bytes: MOST,
            max_nesting_depth: DEEPEST,
            max_total_prototypes: MOST,
            max_instructions_per_proto: MOST,
            max_total_instructions: MOST,
            max_constants_per_proto: MOST,
            max_upvalues_per_proto: MOST,
            max_string_bytes: MOST,
            max_diagnostics: 10000,
        }
    }

    // Whether no limit is above its ceiling: where this is false, the refusal is 21.
    pub fn within_ceilings(self) -> bool
        ensures { result ≡ within_ceilings self }
    {
        let top = ResourceLimits::ceilings();
        let ok = and_under(true, self.max_input_bytes, top.max_input_bytes);
        let ok = and_under(ok, self.max_nesting_depth, top.max_nesting_depth);
        let ok = and_under(ok, self.max_total_prototypes, top.max_total_prototypes);
        let ok = and_under(
            ok,
            self.max_instructions_per_proto,
            top.max_instructions_per_proto,
        );
        let ok = and_under(ok, self.max_total_instructions, top.max_total_instructions);
        let ok = and_under(
            ok,
            self.max_constants_per_proto,
            top.max_constants_per_proto,
        );
        let ok = and_under(ok, self.max_upvalues_per_proto, top.max_upvalues_per_proto);
        let ok = and_under(ok, self.max_string_bytes, top.max_string_bytes);
        and_under(ok, self.max_diagnostics, top.max_diagnostics)
    }
}

// Whether `ok` holds and a limit is at most its ceiling.
fn and_under(ok: bool, limit: usize, ceiling: usize) -> bool
    ensures { result ≡ ok && leb limit ceiling }
{
    if ok { limit <= ceiling } else { false }
}

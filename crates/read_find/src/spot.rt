// The walk over a chunk's functions that finds one of them: one pass that judges them all, and leaves the spot of one, by its number, in lent memory.
// A row is large, and almost all functions are not the one wanted: its row is read once, behind the walk (row.rt).
ghost use Rattle.std.specs.Prelude.{◌≡◌, cond, ◌+◌, ◌≤◌, eqb};
ghost use Rattle.format.specs.Limits.{DEEPEST, MOST, Walkable};
ghost use Rattle.read_walk.specs.Inner.Skim.{skim_result};
ghost use Rattle.read_walk.specs.Inner.Source.{handed};
ghost use Rattle.read_find.specs.Inner.Spot.{spot_of, below_shown, standing, function_at, functions_at, row_at, Found};

use format::limits::ResourceLimits;
use format::refusal::Refusal;
use read_prototype::pass::{pass_head, pass_tail};
use read_walk::walk::Skimmed;

// Where a function begins, where it goes on behind the functions that nest in it, the instructions of all functions before it, its depth, its parent's number, and where the function begins whose source it inherits.
pub type Spot = [usize; 6];

// What a function inherits: its depth, its parent's number, and where the function begins whose source it inherits.
#[derive(Clone, Copy)]
pub struct Above {
    pub depth: usize,
    pub parent: usize,
    pub source: usize,
}

// Where the function begins whose source the functions inherit that nest in one: there, where its own is spelt.
fn source_below(named: bool, start: usize, above: usize) -> usize
    ensures { result ≡ handed named start above }
{
    if named { start } else { above }
}

// What the functions inherit that nest in one. Ruled out: the parent's own parent, the source of the parent's parent where the parent's is spelt.
fn below(above: Above, from: Skimmed, named: bool) -> Above
    requires { above.depth ≤ DEEPEST }
    ensures { result ≡ below_shown above from named }
{
    let source = source_below(named, from.next.at, above.source);
    Above {
        depth: above.depth + 1,
        parent: from.number,
        source: source,
    }
}

// Leaves the spot of a function, where its number is the one wanted.
fn put_spot(spot: &mut Spot, wanted: usize, above: Above, from: Skimmed, tail: usize)
    ensures { spot.new ≡ cond (eqb wanted from.number) (spot_of above from tail) spot.old }
{
    if wanted == from.number {
        *spot = [
            from.next.at,
            tail,
            from.instructions,
            above.depth,
            above.parent,
            above.source,
        ];
    }
}

// Finds a function among one and all that nest in it, at most `left` deep, and judges them all. Ruled out: nested functions at their parent's spot, a number that is given twice.
#[cycle(find_function_find_functions)]
pub fn find_function(
    s: &[u8],
    limits: ResourceLimits,
    left: usize,
    above: Above,
    wanted: usize,
    from: Skimmed,
    spot: &mut Spot,
) -> Result<Skimmed, Refusal>
    requires { Walkable limits × (from.number ≤ MOST) × (above.depth + left ≤ DEEPEST) }
    ensures value { result ≡ skim_result (standing limits s.now above from) (function_at limits s.now left above from) }
    ensures found { Found wanted from.number (function_at limits s.now left above from) (row_at limits s.now spot.old) (row_at limits s.now spot.new) }
{
    let mut unused = [0usize; 4];
    let (counts, behind) = pass_head(s, limits, from.instructions, from.next, &mut unused)?;
    let mut nested = Skimmed {
        next: behind,
        number: from.number + 1,
        instructions: from.instructions + counts.instructions,
    };
    if counts.protos > 0 {
        let nest = below(above, from, counts.named);
        nested = find_functions(s, limits, counts.protos, left, nest, wanted, nested, spot)?;
    }
    unused = [0usize; 4];
    let (_, next) = pass_tail(s, limits.max_string_bytes, nested.next, &mut unused)?;
    put_spot(spot, wanted, above, from, nested.next.at);
    Ok(Skimmed {
        next: next,
        number: nested.number,
        instructions: nested.instructions,
    })
}

// The same of n functions one after the other, each nested in a function below which functions nest at most `left` deep.
#[cycle(find_function_find_functions)]
fn find_functions(
    s: &[u8],
    limits: ResourceLimits,
    n: usize,
    left: usize,
    above: Above,
    wanted: usize,
    from: Skimmed,
    spot: &mut Spot,
) -> Result<Skimmed, Refusal>
    requires { Walkable limits × (above.depth + left ≤ DEEPEST + 1) }
    ensures value { result ≡ skim_result (standing limits s.now above from) (functions_at limits s.now n left above from) }
    ensures found { Found wanted from.number (functions_at limits s.now n left above from) (row_at limits s.now spot.old) (row_at limits s.now spot.new) }
{
    let mut skimmed = from;
    for _ in 0..n {
        let at = skimmed.next.at;
        if left == 0 {
            return Err(Refusal::NestingDepth(at));
        }
        if limits.max_total_prototypes < skimmed.number {
            return Err(Refusal::TotalPrototypes(at));
        }
        skimmed = find_function(s, limits, left - 1, above, wanted, skimmed, spot)?;
    }
    Ok(skimmed)
}

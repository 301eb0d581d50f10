// Chunks that are spelt as their full copy is: behind their first 32 bytes they are its bytes. As crates/copy/src/plain.rt, but that a nested source counts only where it is its parent's: `luac a.lua b.lua` writes none that is.
ghost use Rattle.std.specs.Prelude.{◌≡◌, eqb};
ghost use Rattle.format_spelling.specs.Spelling.{respelt_full};

use format::spelling::Spelling;

// Whether the full copy spells no place otherwise. Ruled out: a sort of places that is not looked at, the archive copy's sources in place of those that are repeated.
pub fn is_plain_in_full(spelling: Spelling) -> bool
    ensures { result ≡ eqb (respelt_full spelling) 0 }
{
    if spelling.padded > 0 {
        return false;
    }
    if spelling.filled > 0 {
        return false;
    }
    spelling.repeated == 0
}

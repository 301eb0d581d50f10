// The source of a function in a full copy: where the one is spelt that is handed down, and whether its own is written.
ghost use Rattle.std.specs.Prelude.{◌≡◌};
ghost use Rattle.copy_full_walk.specs.Inner.Source.{source_of};

use read_walk::source::{repeats, source_at, unpadded};

// Where the source is spelt that the functions in a function inherit, and whether a full copy writes the function's own.
#[derive(Clone, Copy)]
pub struct Source {
    pub own: usize,
    pub written: bool,
}

// The source of the function that begins at a place, by the place at which its parent's is spelt. One that is not spelt is the parent's, and costs nothing. The place that is handed down is behind the zero groups of the size, as in the judge's walk: read again it is a few bytes.
// Ruled out: the parent's as it is spelt, every source written.
pub fn source_of(s: &[u8], max_string_bytes: usize, parent: usize, at: usize) -> Source
    ensures { result ≡ source_of max_string_bytes s.now at parent }
{
    let name = source_at(s, max_string_bytes, at);
    match name {
        None => Source {
            own: parent,
            written: false,
        },
        Some(_) => {
            let same = repeats(s, max_string_bytes, at, parent);
            Source {
                own: unpadded(s, at),
                written: !same,
            }
        }
    }
}

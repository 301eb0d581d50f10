// How a chunk is spelt, where a copy of it spells the same reading otherwise (crates/format_spelling/specs): so many places, by what is otherwise there.
#[derive(Clone, Copy)]
pub struct Spelling {
    // Padded numbers: spelt longer than their shortest spelling. A string's size and a list's count are numbers too.
    pub padded: usize,
    // String constants and local names of size 0: the copy writes what they read as.
    pub filled: usize,
    // Nested functions whose source is spelt: the archive copy writes it as absent.
    pub sources: usize,
    // Those of them whose source has the bytes of their parent's: the full copy writes it as absent too.
    pub repeated: usize,
}

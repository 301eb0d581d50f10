// The library for C: the calls of liblafzimdo.a, as include/lafzimdo.h declares them. A crate is built as a library or
// as a static library, so those of crate `lafzimdo`, which crates in Rattle call, are exported from here: each under
// its name and with its contract, and all it does is to call the other. A slice comes as a pointer and a length, an
// array as a pointer.
#![tactic(auto)]

pub mod entry;
pub mod finding;
pub mod full;
pub mod function;
pub mod part;
pub mod space;
pub mod stricter;
pub mod summary;
pub mod version;
pub mod whole;
pub mod word;

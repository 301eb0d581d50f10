// The entries of a function's lists, each by its number: those before it are passed over, then it is read.
// Every contract holds for any slice, cursor and number, and is an equation with `entry_at` of the entry's reader.
#![tactic(auto)]

pub mod code;
pub mod debug;

// The stricter reading (02, item 7): ints, and the entries of a function's lists, passed over. Every contract holds for any slice and any cursor, and is an equation with a reader of `format_strict`.
#![tactic(auto)]

pub mod int;
pub mod pass;

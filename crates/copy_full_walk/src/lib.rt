// The full copy (02, item 6): a function with all that nest in it, judged and copied in one walk, with each source that is not its parent's.
#![tactic(auto)]

mod source;
pub mod walk;

// The stricter reading (02, item 7): a function and all that nest in it, passed over. Of what is read only the counts that a walk needs are kept, so that it can judge a whole chunk in one pass; what the chunk shows, the ordinary reading shows.
#![tactic(auto)]

mod list;
mod parts;
pub mod walk;

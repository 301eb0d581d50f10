// chunk.rs, `encode_proto_lua54`: a function with all that nest in it, judged and copied in one walk.
#![tactic(auto)]

pub mod walk;

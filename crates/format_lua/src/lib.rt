// Lua's own loader and dumper (lundump.c, ldump.c), close to the C: specs/; that the grammar and the copy of `format` agree with them: proofs/. There is no code here.
#![tactic(auto)]

// The stricter reading (02, item 7): its grammar and its reader in specs/; that the one reads exactly the other, and what the ordinary reading reads: proofs/. There is no code here.
#![tactic(auto)]

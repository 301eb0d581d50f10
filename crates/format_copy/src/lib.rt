// The laws of the archive copy (crates/format/specs/Copy.antt), in proofs/: it is read again, spelt as a copy is; a chunk is its own copy behind byte 32 exactly where no place of it is spelt otherwise. There is no code here.
#![tactic(auto)]

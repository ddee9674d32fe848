// The laws of the meaning, for the reader and for the proofs above: all in `proofs/`. There is no code here.
#![tactic(auto)]

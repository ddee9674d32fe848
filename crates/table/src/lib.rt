// How a set of live blocks is remembered: definitions in `specs/`, laws in `proofs/`. There is no code here.
#![tactic(auto)]

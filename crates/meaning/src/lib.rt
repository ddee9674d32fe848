// The meaning of document 01: definitions in `specs/`, their laws in `proofs/`. There is no code here.
#![tactic(auto)]

// The digits of a number in base two: a definition in `specs/`, its laws in `proofs/`. There is no code here.
#![tactic(auto)]

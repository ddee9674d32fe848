// The arena as a tree: definitions in `specs/`, and in `proofs/` that trees and allowed sets of live blocks are the same thing. There is no code here.
#![tactic(auto)]

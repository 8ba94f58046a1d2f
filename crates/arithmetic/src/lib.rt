// Definitions and laws of arithmetic and lists that every crate above cites. There is no code here: see specs/ and proofs/.
#![tactic(auto)]

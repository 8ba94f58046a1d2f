// The worked cases of the requirements, computed from the definitions. There is no code here: see proofs/.
#![tactic(auto)]

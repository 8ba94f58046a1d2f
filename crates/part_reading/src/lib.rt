// What the functions that read a part of a symbol into the buffers have in common, an axis and a phase alike. There is no code here: see proofs/.
#![tactic(auto)]

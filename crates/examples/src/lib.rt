// Definitions and theorems only: the starred examples of document 01 stand in proofs/Starred.antt, typed equations in proofs/Typed.antt.
#![tactic(auto)]

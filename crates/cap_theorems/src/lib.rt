// What is proved of end caps (02 §6): the crate has no code, only the words of specs/Caps and the theorems of proofs/Demands.
#![tactic(auto)]

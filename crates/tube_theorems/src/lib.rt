// What is true of 01's list of tubes is mathematics: specs/ and proofs/.
#![tactic(auto)]

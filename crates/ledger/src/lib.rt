// The book as a function of the ledger, and the proof of the claim (demand 3). It has no code; see specs/ and proofs/.
#![tactic(auto)]

// The mathematics of the estimate: what the levels hold after any list of deliveries, and how far a sum is from the exact one. It has no
// code; see specs/ and proofs/.
#![tactic(auto)]

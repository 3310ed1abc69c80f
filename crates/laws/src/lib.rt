// Laws about the definitions of `model`, for the proofs of the code and of the theory. It has no code; see specs/.
#![tactic(auto)]

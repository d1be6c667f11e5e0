// Mathematics only: the definitions and laws of specs/, which the proofs of the other crates cite.
#![tactic(auto)]

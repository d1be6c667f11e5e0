// What the promises of the libraries determine, and document 01's proved cases in one list: no code, only specs/ and proofs/.
#![tactic(auto)]

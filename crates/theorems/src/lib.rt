// Theorems about the chip, over the definitions that the code is proved to meet: no code, only specs/ and proofs/.
#![tactic(auto)]

// What a contract asks of a caller, and laws of booleans, tests and lists. Definitions and proofs, and no code.
#![tactic(auto)]

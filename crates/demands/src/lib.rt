// No code: specs/Statements.antt says the demands as theorems, and proofs/ proves them.
#![tactic(auto)]

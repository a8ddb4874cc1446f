// The laws of reading, all in specs/ and proofs/: readers as functions, and that each reads exactly what its grammar writes.
#![tactic(auto)]

// The third demand's statement and its theorem are in specs/ and proofs/: no code of this library runs.
#![tactic(auto)]

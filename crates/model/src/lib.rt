// Definitions and theorems, no code: the machine as a record, the plain run, the audit and the reference host on parsed batches, and
// demand 3 for both. specs/ has the definitions in the order of the paper; proofs/Main.antt states the theorems.

#![tactic(auto)]

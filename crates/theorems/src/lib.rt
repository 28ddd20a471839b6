// Demand 3 for paths, areas and entries in one statement: specs/Whole.antt, proved in proofs/Whole.antt.

#![tactic(auto)]

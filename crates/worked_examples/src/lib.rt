// The worked examples of docs/FORMAT.md that are proved: specs/Cases.antt.

#![tactic(auto)]

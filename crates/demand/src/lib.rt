// Demand 3: an accepted book runs as a programme, over ticks, to the decision, code and obligations of the meaning. This crate has theorems only.
#![tactic(auto)]

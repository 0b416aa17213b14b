// Definitions and theorems only: the double nearest an exact sum.
#![tactic(auto)]

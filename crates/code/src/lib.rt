// Definitions and theorems only: the code of a policy tree, and that it runs right.
#![tactic(auto)]

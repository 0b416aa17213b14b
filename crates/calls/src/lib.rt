// What document 01 promises a C caller: of the deciding call, and of the three calls of the rig's loop. This crate has theorems only.
#![tactic(auto)]

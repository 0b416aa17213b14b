// A book by its parts: it is accepted exactly when they are sound, and what is built of sound parts is accepted. This crate has theorems only.
#![tactic(auto)]

// What sorting keeps: document 02, section 7. This crate has theorems only.
#![tactic(auto)]

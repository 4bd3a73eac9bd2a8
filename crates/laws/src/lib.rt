// No functions: definitions and laws that every crate above shares, each said once.
#![tactic(auto)]

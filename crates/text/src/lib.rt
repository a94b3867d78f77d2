// Texts as bytes. The definitions are in specs/; every crate above uses them.
#![tactic(auto)]

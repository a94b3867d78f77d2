// What is claimed of the calls together: no code.
#![tactic(auto)]

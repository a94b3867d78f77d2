// Resolving: the definition of what a text resolves to in a context stands in specs/.
#![tactic(auto)]

// Printing: the definition of what a canonical text is stands in specs/.
#![tactic(auto)]

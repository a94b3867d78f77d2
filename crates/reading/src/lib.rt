// Reading: the definition of what a text's statements are stands in specs/.
#![tactic(auto)]

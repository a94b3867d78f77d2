// Laws of the definition of printing. There is no code here: the laws are in proofs/, and what they speak of is in specs/.
#![tactic(auto)]

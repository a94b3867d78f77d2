// Laws of the definition of resolving. There is no code here: the laws are in proofs/, and what they speak of is in specs/.
#![tactic(auto)]

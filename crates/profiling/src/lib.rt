// The PK-only house profile: what it says of a text is defined in specs/, and what holds of that definition is in proofs/. The code is `read_profile`.
#![tactic(auto)]

// FCS checked: what the switch comes to for every file, and computed recordings. Proofs only.
#![tactic(auto)]

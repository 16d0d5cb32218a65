// Both containers together: the claim for each, and the same packets in either. Statements and proofs, no code that runs.
#![tactic(auto)]

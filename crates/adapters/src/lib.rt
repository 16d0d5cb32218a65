// Two adapters in one trace: links renamed change no answer, and computed recordings. Statements and proofs, no code that runs.
#![tactic(auto)]

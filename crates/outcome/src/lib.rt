// What import gives, from the bytes of a trace to an outcome: definitions alone. No code that runs.
#![tactic(auto)]

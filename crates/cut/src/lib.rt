// The honest recording, what a cut leaves of it, and the theorem that tolerant import finds exactly that. No code that runs.
#![tactic(auto)]

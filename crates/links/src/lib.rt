// One link's list: that it depends on that link's packets alone, and how import's list is made of such lists. No code that runs.
#![tactic(auto)]

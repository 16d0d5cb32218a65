// What a trace file is, whatever its format: a header, records, and the ACL packets in them. Definitions alone, no code that runs.
#![tactic(auto)]

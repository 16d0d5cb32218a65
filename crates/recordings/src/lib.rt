// Honest pcap recordings, computed: proofs only.
#![tactic(auto)]

// An honest pcap recording in two more encodings, computed: proofs only.
#![tactic(auto)]

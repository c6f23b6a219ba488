// No code: what a caller can hand in (specs/), and that the frames due and the store are octets (proofs/).
#![tactic(auto)]

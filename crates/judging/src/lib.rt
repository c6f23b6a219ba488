// No code: the whole output of `judge` over a unit file and a record (specs/), and that it is the verdict on the record (proofs/).
#![tactic(auto)]

// No code: what conforming means, of a record of groups of lines (specs/), and what follows from it (proofs/).
#![tactic(auto)]

// No code: the inspector's demands as predicates over any terminal, reader and writer (specs/), and what meets and what fails them (proofs/).
#![tactic(auto)]

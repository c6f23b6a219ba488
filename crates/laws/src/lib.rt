// Laws of lists, truth values and tests, and no code: what every other crate's proofs rest on.
#![tactic(auto)]

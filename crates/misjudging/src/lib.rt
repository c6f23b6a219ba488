// No code: judges of records that are right, and families of wrong ones (specs/), each refuted (proofs/).
#![tactic(auto)]

// Octets: big-endian numbers, copying into a buffer, and a part of a slice.
#![tactic(auto)]

pub mod copy;
pub mod numbers;

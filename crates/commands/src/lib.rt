// The commands of `cases`: what a line says, and what stays from line to line.
#![tactic(auto)]

pub mod form; // form.rt: which command a line is, and the octets that it is given
pub mod session; // session.rt: what stays, and the commands that set it

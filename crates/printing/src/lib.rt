// What `cases` prints: the text of each answer.
#![tactic(auto)]

pub mod answer; // answer.rt: the text of what the terminal, the reader and the writer answer

// What the programs print: a tally of cases, what failed, and the front of a buffer. And what they
// read.

#![tactic(auto)]

pub mod failure;
pub mod input;
pub mod tally;
pub mod text;

// The congestion controller: the delay samples, and one value of these and the numbers that every
// call takes and hands back.

#![tactic(auto)]

pub mod answer;
pub mod delays;
pub mod samples;
pub mod state;

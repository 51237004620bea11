// The places where the tracker's packets and samples lie as arrays of integers, so that a caller
// can keep them in memory of its own: instances of the traits, over which crate `sent` has every
// call.

#![tactic(auto)]

pub mod columns;
pub mod pairs;

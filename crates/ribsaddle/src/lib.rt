// The port for C and Rust: the codec, the tracker and the receiver under one prefix, `ribsaddle_`.
// A state stands behind a pointer that the caller owns; every pattern of bits is a state, and one
// that is not sound gets 19. Each function answers document 01's number, and where that is not 0 it
// leaves all memory that it was lent as it was.

#![tactic(auto)]

pub mod codec;
mod number;
pub mod receiver;
mod told;
pub mod tracker;

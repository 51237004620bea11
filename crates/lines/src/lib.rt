// The line that shows a datagram.

#![tactic(auto)]

pub mod datagram;

// The tracker of sent packets: what was sent, what was acknowledged, what is lost, and the
// controller's numbers that go with it. Each loop and each call stands once, over any place where
// the packets and the samples lie (`head`); the tracker as one value calls these (`state`).

#![tactic(auto)]

pub mod ack;
pub mod answer;
pub mod head;
pub mod lost;
pub mod packets;
pub mod place;
pub mod read;
pub mod state;
pub mod transmit;

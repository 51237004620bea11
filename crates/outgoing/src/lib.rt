// What document 01 says of sent packets one by one: a packet's marks, the checks of a transmit and
// of an ack, which packets an ack speaks of, and the order of the lost ones. The definitions of the
// whole tracker stand in specs. `sent` has the tracker's calls, over any place where samples and
// packets lie; `sent_lent` has such places made of integers.

#![tactic(auto)]

pub mod ack;
pub mod answer;
pub mod kept;
pub mod lost;
pub mod told;
pub mod transmit;

// What the calls that leave another state answer.
use crate::state::SentPackets;
use outgoing::answer::Outcome;

// The answer beside the state that the next call takes (document 01: states are plain values).
// A refusal hands the state back as it came.
#[derive(Clone, Copy)]
pub struct Tracked {
    pub answer: Outcome,
    pub state: SentPackets,
}

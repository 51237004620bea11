// Document 01's numbers for what the tracker answers, as the recorded lists have them.
use outgoing::answer::{Outcome, Told};

// (No Outcome::number: a promise, its row and its edit would be longer than the three of these.)
pub fn of_outcome(outcome: Outcome) -> u64 {
    match outcome {
        Outcome::Done => 0,
        Outcome::Refused(reason) => u64::from(reason.number()),
    }
}

// (No From in the port: document 01 wants its own enums there in place of Result.)
pub(crate) fn told<T>(told: Told<T>) -> Option<T> {
    match told {
        Told::Is(value) => Some(value),
        Told::Refused(_) => None,
    }
}

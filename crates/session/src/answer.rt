// Document 01's numbers for what the tracker answers.
ghost use Rattle.std.specs.Prelude.{◌≡◌};
ghost use Rattle.outgoing.specs.Answers.{outcome, answer_told};
ghost use Rattle.session.specs.Lines.{number_of};
ghost use Rattle.session.specs.Replay.{value_or};

use outgoing::answer::{Outcome, Told};

// The number that a line prints: 0 is done.
// (No Outcome::number: a promise, its row and its edit would be longer than the three of these.)
pub(crate) fn answer_number(answer: Outcome) -> u64
    ensures { result ≡ number_of (outcome answer) }
{
    match answer {
        Outcome::Done => 0,
        Outcome::Refused(reason) => u64::from(reason.number()),
    }
}

// 0 where it is refused: a line prints numbers alone (`shown_of`).
pub(crate) fn value_of(told: Told<u64>) -> u64
    ensures { result ≡ value_or 0 (answer_told told) }
{
    match told {
        Told::Is(n) => n,
        Told::Refused(_) => 0,
    }
}

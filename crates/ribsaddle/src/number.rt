// The number of each answer: 0, or that of the refusal.
// (For C. No `From`: neither these enums nor u32 are this crate's.)
ghost use Rattle.std.specs.Prelude.{◌≡◌};
ghost use Rattle.outgoing.specs.Answers.{outcome};
ghost use Rattle.ribsaddle.specs.Answer.{number_of};
ghost use Rattle.ribsaddle.specs.Receiver.{writing_number};

use outgoing::answer::Outcome;
use recv::Writing;

// (No Outcome::number: a promise, its row and its edit would be longer than the three of these.)
pub(crate) fn of_outcome(told: Outcome) -> u32
    ensures { result ≡ number_of (outcome told) }
{
    match told {
        Outcome::Done => 0,
        Outcome::Refused(reason) => reason.number(),
    }
}

pub(crate) fn of_stored(told: Writing) -> u32
    ensures { result ≡ writing_number told }
{
    match told {
        Writing::Stored => 0,
        Writing::AlreadyThere => 0,
        Writing::Refused(reason) => reason.number(),
    }
}

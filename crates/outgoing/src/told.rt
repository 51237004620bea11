// What a question about a tracker is answered: 19 where the state is not sound.
ghost use Rattle.std.specs.Prelude.{◌-◌, ◌≡◌};
ghost use Rattle.outgoing.specs.Answers.{answer_told};
ghost use Rattle.outgoing.specs.Read.{told_of, any_of, last_acked_of};

use crate::answer::{Reason, Told};
use seq::SeqNum;

// What is read of a sound state.
// (A flag beside the value: `told_of` of specs/ is over the two, and promised.)
pub fn told<T: Copy>(sound: bool, value: T) -> Told<T>
    ensures { answer_told result ≡ told_of sound value }
{
    if sound {
        Told::Is(value)
    } else {
        Told::Refused(Reason::NotSound)
    }
}

// Whether there is one, where it was told how many.
pub fn any_told(count: Told<u64>) -> Told<bool>
    ensures { answer_told result ≡ any_of (answer_told count) }
{
    match count {
        Told::Is(n) => Told::Is(0 < n),
        Told::Refused(reason) => Told::Refused(reason),
    }
}

// The last number of the acknowledged run, or 0 if none, where of `count` packets `live` are kept.
// (0 and no Option: document 01, "or 0 if none".)
pub fn last_acked(initial: SeqNum, count: u32, live: u32) -> SeqNum
    ensures { result ≡ last_acked_of initial (count - live) }
{
    if count <= live {
        return SeqNum(0);
    }
    initial.at(count - live)
}

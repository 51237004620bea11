// The checks of a transmit.
ghost use Rattle.std.specs.Prelude.{◌≡◌};
ghost use Rattle.outgoing.specs.Answers.{outcome};
ghost use Rattle.outgoing.specs.Transmit.{transmit_check};

use crate::answer::{Outcome, Reason};
use crate::kept::Packet;
use congestion::numbers::Numbers;
use congestion::settings::Settings;

// The checks of a transmit, in their order: 11, 12, and of a first one 15, 13, 14.
// (Loose numbers, as `transmit_check` of specs/ has them. No `?`: an `Outcome` is no Result.)
#[tactic(auto, unfolding(crate::specs::Transmit::transmit_check))]
pub fn transmit_check(
    numbers: Numbers,
    count: u32,
    live: u32,
    offset: u32,
    len: u32,
    clock: u64,
) -> Outcome
    ensures { outcome result ≡ transmit_check numbers count live offset len clock }
{
    if Settings::LATEST < clock || clock < numbers.last {
        return Outcome::Refused(Reason::BadTime);
    }
    if offset == 0 {
        return Outcome::Refused(Reason::NotSent);
    }
    if offset <= count {
        return Outcome::Done;
    }
    if 1 < offset - count {
        return Outcome::Refused(Reason::NotSent);
    }
    if Packet::MOST_SENT <= count {
        return Outcome::Refused(Reason::TooMany);
    }
    if numbers.free_window() < len {
        return Outcome::Refused(Reason::NoWindow);
    }
    if Packet::PLACES <= live {
        return Outcome::Refused(Reason::NoPlace);
    }
    Outcome::Done
}

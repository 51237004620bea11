// Why a library refused a call: the codec's reader or writer, the receiver, or the sender's
// tracker.
use outgoing::answer;
use packet::{decode, encode};
use std::fmt;
use std::fmt::{Display, Formatter};

#[derive(Clone, Copy)]
pub(crate) enum Refusal {
    Reader(decode::Reason),
    Writer(encode::Unwritten),
    Receiver(recv::Refusal),
    Tracker(answer::Reason),
}

impl Refusal {
    // The answer's number.
    pub(crate) fn number(self) -> u32 {
        match self {
            Refusal::Reader(reason) => reason.number(),
            Refusal::Writer(reason) => reason.number(),
            Refusal::Receiver(refusal) => refusal.number(),
            Refusal::Tracker(reason) => reason.number(),
        }
    }
}

impl From<decode::Reason> for Refusal {
    fn from(reason: decode::Reason) -> Self {
        Refusal::Reader(reason)
    }
}

impl From<encode::Unwritten> for Refusal {
    fn from(reason: encode::Unwritten) -> Self {
        Refusal::Writer(reason)
    }
}

impl From<recv::Refusal> for Refusal {
    fn from(refusal: recv::Refusal) -> Self {
        Refusal::Receiver(refusal)
    }
}

impl From<answer::Reason> for Refusal {
    fn from(reason: answer::Reason) -> Self {
        Refusal::Tracker(reason)
    }
}

impl Display for Refusal {
    fn fmt<W: fmt::Write>(&self, f: &mut Formatter<W>) -> fmt::Result {
        write!(f, "{}", self.number())
    }
}

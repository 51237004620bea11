// What a step told.
use crate::refusal::Refusal;
use seq::SeqNum;
use std::fmt;
use std::fmt::{Display, Formatter};

#[derive(Clone, Copy)]
pub(crate) enum Told {
    Nothing,
    Sent(SeqNum, usize),
    SentAgain(SeqNum),
    Unsent(SeqNum, Refusal),
    // An ack, with so many bytes of SACK.
    Heard(SeqNum, usize),
    Unheard(SeqNum, Refusal),
    // So many packets were sent again.
    TimedOut(u64),
    LostPacket(SeqNum),
    LostAck(SeqNum),
    Undecoded(Refusal),
    // A payload, and the number that is in order after it.
    Wrote(SeqNum, SeqNum),
    Waits(SeqNum),
    WroteAgain(SeqNum),
    Unwritten(SeqNum, Refusal),
    Read(usize),
    Unread(Refusal),
    Built(SeqNum, usize),
    Unbuilt(Refusal),
}

impl Told {
    // The refusal, where a call was refused.
    pub(crate) fn refusal(self) -> Option<Refusal> {
        match self {
            Told::Unsent(_, refusal)
            | Told::Unheard(_, refusal)
            | Told::Unwritten(_, refusal)
            | Told::Undecoded(refusal)
            | Told::Unread(refusal)
            | Told::Unbuilt(refusal) => Some(refusal),
            _ => None,
        }
    }
}

impl Display for Told {
    fn fmt<W: fmt::Write>(&self, f: &mut Formatter<W>) -> fmt::Result {
        match self {
            Told::Nothing => write!(f, "nothing"),
            Told::Sent(number, size) => write!(f, "sent {}, bytes {size}", number.0),
            Told::SentAgain(number) => write!(f, "sent {} again", number.0),
            Told::Unsent(number, why) => write!(f, "transmit of {} refused {why}", number.0),
            Told::Heard(ack, size) => write!(f, "heard ack {}, bytes of SACK {size}", ack.0),
            Told::Unheard(ack, why) => write!(f, "ack {} refused {why}", ack.0),
            Told::TimedOut(count) => write!(f, "timeout, sent again {count}"),
            Told::LostPacket(number) => write!(f, "lost {}", number.0),
            Told::LostAck(ack) => write!(f, "lost ack {}", ack.0),
            Told::Undecoded(why) => write!(f, "datagram refused {why}"),
            Told::Wrote(number, last) => write!(f, "wrote {}, in order to {}", number.0, last.0),
            Told::Waits(number) => write!(f, "wrote, waits: {}", number.0),
            Told::WroteAgain(number) => write!(f, "wrote {} again", number.0),
            Told::Unwritten(number, why) => write!(f, "write of {} refused {why}", number.0),
            Told::Read(size) => write!(f, "read, bytes {size}"),
            Told::Unread(why) => write!(f, "read refused {why}"),
            Told::Built(ack, size) => write!(f, "built ack {}, bytes of SACK {size}", ack.0),
            Told::Unbuilt(why) => write!(f, "ack not built, refused {why}"),
        }
    }
}

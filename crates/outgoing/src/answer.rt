// What the tracker's functions answer. Each refusal holds its reason.
ghost use Rattle.std.specs.Prelude.{◌≡◌};
ghost use Rattle.outgoing.specs.Answers.{reason_number};

use packet::kind::PacketType;
use packet::sack::SackReason;
use seq::SeqNum;

// Why a call was refused: a SACK of a wrong length (5, 6, 8), a setting out of range (10), a time
// or delay above 2^50 or a clock before the last accepted one (11), a number that was not sent or a
// position at or past the count (12), a packet longer than the free window (13), no place left
// (14), 60,000 packets sent already (15), a state that is not sound (19).
#[derive(Clone, Copy)]
pub enum Reason {
    BadSack(SackReason),
    BadSetting,
    BadTime,
    NotSent,
    NoWindow,
    NoPlace,
    TooMany,
    NotSound,
}

impl Reason {
    // The number of the refusal. A method and no `From`: docs/PROMISES.md promises `number`.
    pub fn number(self) -> u32
        ensures { result ≡ reason_number self }
    {
        match self {
            Reason::BadSack(reason) => reason.number(),
            Reason::BadSetting => 10,
            Reason::BadTime => 11,
            Reason::NotSent => 12,
            Reason::NoWindow => 13,
            Reason::NoPlace => 14,
            Reason::TooMany => 15,
            Reason::NotSound => 19,
        }
    }
}

// Whether a call was done. Not `Told<()>`: `Done` says more than `Is(())`.
// An enum of the port's own in place of Result: document 01, "What must change shape".
#[derive(Clone, Copy)]
pub enum Outcome {
    Done,
    Refused(Reason),
}

// What was asked for, or why it is not told.
// An enum of the port's own in place of Result: document 01, "What must change shape".
#[derive(Clone, Copy)]
pub enum Told<T> {
    Is(T),
    Refused(Reason),
}

// A lost packet, as it is to be sent again.
#[derive(Clone, Copy)]
pub struct LostPacket {
    pub seq_num: SeqNum,
    pub packet_type: PacketType,
    pub tag: u32,
}

// One event of a session: what is done to the tracker, and what it must then show.
use crate::answer::{of_outcome, told};
use feed::Feed;
use feed::sessions::UnknownKind;
use outgoing::answer::{LostPacket, Outcome, Reason, Told};
use packet::kind::{PacketType, TypeRead};
use sent::answer::Tracked;
use sent::state::SentPackets;
use seq::SeqNum;
use std::io::BufRead;

// The widths of an event: kind, type, number, length or SACK byte count, now, delay.
const WIDTHS: [u8; 6] = [1, 1, 2, 4, 8, 8];

// Behind the SACK: answer, source, in flight, maximum, timeout, ack_num, lost count.
const SEEN: [u8; 7] = [1, 1, 4, 4, 8, 2, 2];

// Each lost packet: number, type, tag.
const LOST: [u8; 3] = [2, 1, 4];

// What is counted: the sessions, and what is done to the tracker.
#[derive(Clone, Copy)]
pub enum Kind {
    Session,
    Transmit,
    Ack,
    Timeout,
    // So many first transmits, until one is refused.
    Run,
}

impl TryFrom<u64> for Kind {
    type Error = UnknownKind;

    fn try_from(number: u64) -> Result<Self, UnknownKind> {
        match number {
            0 => Ok(Kind::Session),
            1 => Ok(Kind::Transmit),
            2 => Ok(Kind::Ack),
            3 => Ok(Kind::Timeout),
            4 => Ok(Kind::Run),
            _ => Err(UnknownKind),
        }
    }
}

// An event that was compared, and the tracker after it.
#[derive(Clone, Copy)]
pub struct Compared {
    pub state: SentPackets,
    pub kind: Result<Kind, UnknownKind>,
    pub answer: u64,
    pub is_same: bool,
}

// A packet that is sent, or sent again.
#[derive(Clone, Copy)]
struct Sending {
    number: SeqNum,
    packet_type: PacketType,
    tag: u32,
    length: u32,
    now: u64,
}

impl Sending {
    fn on(self, state: SentPackets) -> Tracked {
        state.on_transmit(
            self.number,
            self.packet_type,
            self.tag,
            self.length,
            self.now,
        )
    }

    // So many first transmits, until one is refused.
    fn run_on(self, state: SentPackets, count: u64) -> Tracked {
        let mut sending = self;
        let mut tracked = sending.on(state);
        for _ in 1..count {
            if matches!(tracked.answer, Outcome::Refused(_)) {
                break;
            }
            sending.number = sending.number.plus(1);
            tracked = sending.on(tracked.state);
        }
        tracked
    }
}

// Reset for a number that no type has: a list may have one. (packet_cases has this of a byte.)
fn type_of(number: u64) -> PacketType {
    match PacketType::of_number((number & 0xff) as u8) {
        TypeRead::Known(packet_type) => packet_type,
        TypeRead::UnknownType => PacketType::Reset,
    }
}

// Takes the next lost packet of the list, and holds the one that is told against it.
// (Field by field, as below: a state's answers against a record's numbers; no type has both.)
fn is_lost<R: BufRead + Drop>(told: Told<LostPacket>, feed: &mut Feed<R>) -> bool {
    let [number, packet_type, tag] = feed.numbers(LOST);
    match told {
        Told::Is(found) => {
            u64::from(found.seq_num.0) == number
                && u64::from(found.packet_type.number()) == packet_type
                && u64::from(found.tag) == tag
        }
        Told::Refused(_) => false,
    }
}

// The position behind the last gives 12.
fn is_end(told: Told<LostPacket>) -> bool {
    matches!(told, Told::Refused(Reason::NotSent))
}

// Takes what the tracker must show, and holds it against what it shows.
fn is_shown<R: BufRead + Drop>(tracked: Tracked, feed: &mut Feed<R>) -> (u64, bool) {
    let [
        answer,
        _source,
        in_flight,
        maximum,
        timeout,
        ack_num,
        lost_count,
    ] = feed.numbers(SEEN);
    let state = tracked.state;
    let end = (lost_count & 0xffff) as u32;
    let mut is_same = of_outcome(tracked.answer) == answer
        && told(state.in_flight()) == Some(in_flight)
        && told(state.maximum()) == Some(maximum)
        && told(state.timeout()) == Some(timeout)
        && told(state.ack_num()).is_some_and(|n| u64::from(n.0) == ack_num)
        && told(state.lost_count()) == Some(lost_count)
        && is_end(state.lost_at(end));
    for position in 0..end {
        is_same &= is_lost(state.lost_at(position), feed);
    }
    (answer, is_same & !feed.is_short)
}

// Takes an event whose index in its session is `tag`. The room is for its SACK, of which as much is
// taken as it holds. One of no known kind is a run.
pub fn compare<R: BufRead + Drop>(
    state: SentPackets,
    tag: u32,
    feed: &mut Feed<R>,
    room: &mut [u8],
) -> Compared {
    let [kind, packet_type, number, length, now, delay] = feed.numbers(WIDTHS);
    let kind = Kind::try_from(kind);
    let size = (length % 65537).min(room.len() as u64) as usize;
    let number = SeqNum((number & 0xffff) as u16);
    let sending = Sending {
        number,
        packet_type: type_of(packet_type),
        tag,
        length: (length & 0xffff_ffff) as u32,
        now,
    };
    let tracked = match kind {
        Ok(Kind::Transmit) => sending.on(state),
        Ok(Kind::Ack) => {
            let sack = &mut room[..size];
            feed.bytes(sack);
            state.on_ack(number, sack, delay, now)
        }
        Ok(Kind::Timeout) => state.on_timeout(),
        Ok(Kind::Run) | Ok(Kind::Session) | Err(UnknownKind) => sending.run_on(state, delay),
    };
    let (answer, is_same) = is_shown(tracked, feed);
    Compared {
        state: tracked.state,
        kind,
        answer,
        is_same,
    }
}

// Sessions of the tracker, and what they come to.
use crate::answer::{of_outcome, told};
use crate::event::{Kind, compare};
use feed::sessions::{Head, Replayed};
use feed::{Feed, sessions};
use report::tally::Tally;
use sent::state::SentPackets;
use seq::SeqNum;
use std::fmt;
use std::fmt::{Display, Formatter};
use std::io::BufRead;

// The sessions, and the events of each kind.
#[derive(Clone, Copy)]
pub struct Kinds {
    pub sessions: Tally,
    pub transmits: Tally,
    pub acks: Tally,
    pub timeouts: Tally,
    pub runs: Tally,
}

// How a session ended. What the tracker refuses to tell is the largest number.
#[derive(Clone, Copy, Default)]
pub struct End {
    pub packets: u64,
    pub in_flight: u64,
    pub maximum: u64,
    pub timeout: u64,
    pub ack_num: u64,
}

// What the sessions come to: the cases by kind, and how the last session ended.
#[derive(Clone, Copy)]
pub struct Totals {
    pub kinds: Kinds,
    pub last: End,
}

// The totals so far, and room for a SACK.
#[derive(Drop)]
struct Replaying {
    totals: Totals,
    room: [u8; 65536],
}

impl Kinds {
    fn new() -> Self {
        let none = Tally::new();
        Self {
            sessions: none,
            transmits: none,
            acks: none,
            timeouts: none,
            runs: none,
        }
    }

    // One case more of a kind.
    fn count(&mut self, kind: Kind, answer: u64, is_same: bool) {
        let tally = match kind {
            Kind::Session => &mut self.sessions,
            Kind::Transmit => &mut self.transmits,
            Kind::Ack => &mut self.acks,
            Kind::Timeout => &mut self.timeouts,
            Kind::Run => &mut self.runs,
        };
        *tally = tally.counted(answer, is_same);
    }
}

impl End {
    fn of(state: SentPackets) -> Self {
        Self {
            packets: u64::from(state.count),
            in_flight: told(state.in_flight()).unwrap_or(u64::MAX),
            maximum: told(state.maximum()).unwrap_or(u64::MAX),
            timeout: told(state.timeout()).unwrap_or(u64::MAX),
            ack_num: told(state.ack_num()).map_or(u64::MAX, |n| u64::from(n.0)),
        }
    }
}

impl Display for End {
    fn fmt<W: fmt::Write>(&self, f: &mut Formatter<W>) -> fmt::Result {
        let packets = self.packets;
        let in_flight = self.in_flight;
        let maximum = self.maximum;
        let timeout = self.timeout;
        let ack_num = self.ack_num;
        write!(f, "{packets} {in_flight} {maximum} {timeout} {ack_num}")
    }
}

impl Replayed for Replaying {
    type State = SentPackets;

    fn start(&self, head: &Head) -> (SentPackets, u64) {
        let tracked = SentPackets::new(SeqNum(head.initial), head.settings);
        (tracked.state, of_outcome(tracked.answer))
    }

    fn count(&mut self, answer: u64, is_same: bool) {
        self.totals.kinds.count(Kind::Session, answer, is_same);
    }

    // One of no known kind is a run that differs.
    fn event<R: BufRead + Drop>(
        &mut self,
        state: SentPackets,
        index: u32,
        feed: &mut Feed<R>,
    ) -> SentPackets {
        let compared = compare(state, index, feed, &mut self.room);
        let is_same = compared.is_same & compared.kind.is_ok();
        let kind = compared.kind.unwrap_or(Kind::Run);
        self.totals.kinds.count(kind, compared.answer, is_same);
        compared.state
    }

    fn end(&mut self, state: SentPackets) {
        self.totals.last = End::of(state);
    }
}

// Replays all sessions of a list.
pub fn replay<R: BufRead + Drop>(source: R) -> Totals {
    let mut replay = Replaying {
        totals: Totals {
            kinds: Kinds::new(),
            last: End::default(),
        },
        room: [0; 65536],
    };
    sessions::replay(source, &mut replay);
    replay.totals
}

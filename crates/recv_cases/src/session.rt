// Sessions: the buffer's length, the initial number, the answer to its making, a count of events,
// the events. The buffer that is lent has just the length of the session.
use crate::event::{Compared, Receiver};
use crate::kind::Kind;
use list::{behind, four, number, two};
use recv::{Creation, ReceiveBuffer};
use report::tally::Tally;
use seq::SeqNum;

// What is counted: the sessions, and the events of each kind.
#[derive(Drop)]
pub(crate) struct Tallies {
    pub sessions: Tally,
    pub writes: Tally,
    pub reads: Tally,
    pub acks: Tally,
    pub asks: Tally,
    pub runs: Tally,
}

impl Tallies {
    fn new() -> Self {
        Self {
            sessions: Tally::new(),
            writes: Tally::new(),
            reads: Tally::new(),
            acks: Tally::new(),
            asks: Tally::new(),
            runs: Tally::new(),
        }
    }

    // One event more.
    fn count(&mut self, event: Compared) {
        let tally = match event.kind {
            Kind::Write => &mut self.writes,
            Kind::Read => &mut self.reads,
            Kind::Ack => &mut self.acks,
            Kind::Ask => &mut self.asks,
            Kind::Run => &mut self.runs,
        };
        *tally = tally.counted(event.answer, event.is_same);
    }
}

// The answer's number, as the recorded list has it.
fn number_of(creation: Creation) -> u64 {
    match creation {
        Creation::Made => 0,
        Creation::Refused(refusal) => refusal.number() as u64,
    }
}

// A list has no more events than bytes: past its end each event differs.
const MOST_EVENTS: u32 = 1048576;

// Replays the first session of a list, and answers what stands behind it.
fn replay_first<'a>(
    tallies: &mut Tallies,
    list: &'a [u8],
    buffer: &mut [u8],
    room: &mut [u8],
) -> &'a [u8] {
    let length = four(list, 0) as usize;
    let answer = number(list, 6, 1);
    let created = ReceiveBuffer::new(SeqNum(two(list, 4)), length);
    let is_same = answer == number_of(created.answer) && 11 <= list.len();
    tallies.sessions = tallies.sessions.counted(answer, is_same);
    let mut rest = behind(list, 11);
    let Some(buffer) = buffer.get_mut(..length) else {
        return rest;
    };
    let mut receiver = Receiver {
        state: created.state,
        buffer,
        room,
    };
    for _ in 0..four(list, 7).min(MOST_EVENTS) {
        let event = receiver.compare(rest);
        tallies.count(event);
        rest = behind(rest, event.size);
    }
    rest
}

// Replays the sessions of a list, which have a byte or more.
pub(crate) fn replay(list: &[u8]) -> Tallies {
    let mut buffer = io::large_buffer();
    let mut room = io::large_buffer();
    let mut tallies = Tallies::new();
    let mut rest = list;
    for _ in 0..list.len() {
        if rest.is_empty() {
            break;
        }
        rest = replay_first(&mut tallies, rest, &mut buffer, &mut room);
    }
    tallies
}

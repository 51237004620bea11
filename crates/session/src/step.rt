// A step of a replay: the next event is taken.
ghost use Rattle.std.specs.Prelude.{◌+◌, ◌≤◌, ◌<◌, ◌≡◌, length, take, drop, eqb, MatchOption};
ghost use Rattle.outgoing.specs.Answers.{outcome};
ghost use Rattle.sent.specs.Answers.{told};
ghost use Rattle.session.specs.Format.{sack_size};
ghost use Rattle.session.specs.Lines.{number_of};
ghost use Rattle.session.specs.Replay.{found, event_at, stepped, event_state, shown_of, taken_of, step_answer};

use crate::answer::{answer_number, value_of};
use crate::check::EVENTS;
use crate::event::{Event, Kind, read_event};
use crate::line::Line;
use crate::replay::{Replay, StepReason, Stepped};
use outgoing::answer::{Outcome, Reason};
use outgoing::lost::type_of;
use sent::answer::Tracked;
use sent::state::SentPackets;
use seq::SeqNum;

// The event of an index, if it is in the file and known.
fn find_event(file: &[u8], index: u32) -> Option<Event>
    ensures { found result ≡ event_at file.now index }
{
    let at = EVENTS + Event::SIZE * (index as usize);
    if file.len() < at + Event::SIZE {
        return None;
    }
    let event = read_event(file, at);
    event.is_known().then_some(event)
}

// So many bytes from a place on, if the file has them.
fn bytes_from(file: &[u8], at: usize, size: usize) -> Option<&[u8]>
    ensures { MatchOption result (length file.now < at + size) (λ s. (at + size ≤ length file.now) × (s.now ≡ take size (drop at file.now))) }
{
    file.get(at..)?.get(..size)
}

// What the tracker answers to an event. The tag is the event's index.
fn applied(state: SentPackets, index: u32, event: Event, sack: &[u8]) -> Tracked
    ensures { told result ≡ event_state state index event sack.now }
{
    let number = SeqNum(event.number);
    match Kind::of_number(event.kind) {
        Some(Kind::Transmit) => {
            let packet_type = type_of(event.packet_type);
            state.on_transmit(number, packet_type, index, event.size, event.clock)
        }
        Some(Kind::Ack) => state.on_ack(number, sack, event.delay, event.clock),
        Some(Kind::Timeout) | None => state.on_timeout(),
    }
}

// Is a call refused since the tracker is not sound?
fn is_unsound(answer: Outcome) -> bool
    ensures { result ≡ eqb (number_of (outcome answer)) 19 }
{
    matches!(answer, Outcome::Refused(Reason::NotSound))
}

// What is shown of the tracker after an event.
fn shown(index: u32, answer: u64, state: SentPackets) -> Line
    ensures { result ≡ shown_of index answer state }
{
    let numbers = state.numbers;
    Line {
        index: u64::from(index),
        answer,
        in_flight: u64::from(numbers.in_flight),
        maximum: u64::from(numbers.maximum),
        timeout: numbers.timeout,
        lost: value_of(state.lost_count()),
    }
}

// An event is taken, with its SACK bytes.
fn taken(replay: Replay, event: Event, sack: &[u8]) -> Stepped
    requires { (replay.index < replay.count) × (replay.sack_at + sack_size event ≤ 18446744073709551615) }
    ensures { stepped result ≡ taken_of replay event sack.now }
{
    let tracked = applied(replay.state, replay.index, event, sack);
    if is_unsound(tracked.answer) {
        return Stepped {
            told: Err(StepReason::NotSound),
            replay,
        };
    }
    let line = shown(replay.index, answer_number(tracked.answer), tracked.state);
    Stepped {
        told: Ok(Some(line)),
        replay: Replay {
            index: replay.index + 1,
            sack_at: replay.sack_at + (event.sack_size() as usize),
            state: tracked.state,
            ..replay
        },
    }
}

impl Replay {
    // Takes the next event and tells its line, or that none is left.
    pub fn step(self, file: &[u8]) -> Stepped
        ensures { stepped result ≡ step_answer file.now self }
    {
        if self.count <= self.index {
            return Stepped {
                told: Ok(None),
                replay: self,
            };
        }
        let Some(event) = find_event(file, self.index) else {
            return Stepped {
                told: Err(StepReason::BadSession),
                replay: self,
            };
        };
        let size = event.sack_size() as usize;
        let Some(sack) = bytes_from(file, self.sack_at, size) else {
            return Stepped {
                told: Err(StepReason::BadSession),
                replay: self,
            };
        };
        taken(self, event, sack)
    }
}

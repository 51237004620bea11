// One event of a session: what is done to the controller, and what it must then show.
use controller::answer::Answer;
use controller::state::{Controller, Packet, Transmit};
use feed::Feed;
use feed::sessions::{Head, Replayed, UnknownKind};
use report::tally::Tally;
use std::io::BufRead;

// The widths in bytes of an event: kind, sent once, length, now, delay, the packet's transmit time,
// answer, source, in flight, maximum, timeout, round trip, variance.
const WIDTHS: [u8; 13] = [1, 1, 4, 8, 8, 8, 1, 1, 4, 4, 8, 8, 8];

// What is done to the controller.
#[derive(Clone, Copy)]
enum Kind {
    Transmit,
    Ack,
    Timeout,
    Loss,
}

impl TryFrom<u64> for Kind {
    type Error = UnknownKind;

    fn try_from(number: u64) -> Result<Self, UnknownKind> {
        match number {
            1 => Ok(Kind::Transmit),
            2 => Ok(Kind::Ack),
            3 => Ok(Kind::Timeout),
            4 => Ok(Kind::Loss),
            _ => Err(UnknownKind),
        }
    }
}

// The sessions and the events, by answer number.
#[derive(Clone, Copy)]
pub(crate) struct Totals {
    pub sessions: Tally,
    pub events: Tally,
}

impl Totals {
    pub(crate) fn new() -> Self {
        Self {
            sessions: Tally::new(),
            events: Tally::new(),
        }
    }
}

impl Replayed for Totals {
    type State = Controller;

    fn start(&self, head: &Head) -> (Controller, u64) {
        let outcome = Controller::new(head.settings);
        (outcome.controller, number_of(outcome.answer))
    }

    fn count(&mut self, answer: u64, is_same: bool) {
        self.sessions = self.sessions.counted(answer, is_same);
    }

    // One of no known kind is a loss that differs.
    fn event<R: BufRead + Drop>(
        &mut self,
        controller: Controller,
        _index: u32,
        feed: &mut Feed<R>,
    ) -> Controller {
        let [
            kind,
            once,
            length,
            now,
            delay,
            at,
            answer,
            _source,
            in_flight,
            maximum,
            timeout,
            trip,
            variance,
        ] = feed.numbers(WIDTHS);
        let kind = Kind::try_from(kind);
        let length = (length & 0xffff_ffff) as u32;
        let packet = Packet {
            length,
            once: once == 1,
            at,
        };
        let outcome = match kind {
            Ok(Kind::Transmit) => controller.on_transmit(Transmit::Initial(length), now),
            Ok(Kind::Ack) => controller.on_ack(packet, delay, now),
            Ok(Kind::Timeout) => controller.on_timeout(),
            Ok(Kind::Loss) | Err(UnknownKind) => controller.on_loss(),
        };
        let after = outcome.controller;
        // (Field by field: a state's numbers against a record's; no type has both.)
        let is_same = number_of(outcome.answer) == answer
            && u64::from(after.in_flight()) == in_flight
            && u64::from(after.maximum()) == maximum
            && after.timeout() == timeout
            && after.numbers.trip == trip
            && after.numbers.variance == variance
            && kind.is_ok()
            && !feed.is_short;
        self.events = self.events.counted(answer, is_same);
        after
    }

    fn end(&mut self, _controller: Controller) {}
}

// Document 01's number. The tracker's programs have the same of an enum of the tracker's.
fn number_of(answer: Answer) -> u64 {
    match answer {
        Answer::Done => 0,
        Answer::Refused(reason) => u64::from(reason.number()),
    }
}

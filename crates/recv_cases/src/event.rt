// The events of a session, each a record of the list (oracle/README.md). Each takes its input from
// the record, calls the receiver, and holds what it answers against the record.
ghost use Rattle.std.specs.Prelude.{◌≤◌};

use crate::kind::{Kind, UnknownKind};
use list::{behind, behind_part, fill, four, holds, number, part, two};
use recv::{ReceiveBuffer, Refusal, Told, Writing};
use report::text::front;
use seq::SeqNum;

// What the calls answer: a write whether the payload was already there.
fn of_writing(writing: Writing) -> Result<u64, Refusal> {
    match writing {
        Writing::Stored => Ok(0),
        Writing::AlreadyThere => Ok(1),
        Writing::Refused(refusal) => Err(refusal),
    }
}

// (No From in the port: document 01 wants its own enums there in place of Result.)
fn given<T>(told: Told<T>) -> Result<T, Refusal> {
    match told {
        Told::Is(value) => Ok(value),
        Told::Refused(refusal) => Err(refusal),
    }
}

// (Three and no trait: each widens another type, in its one line.)
fn of_count(count: Told<usize>) -> Result<u64, Refusal> {
    Ok(given(count)? as u64)
}

fn of_truth(truth: Told<bool>) -> Result<u64, Refusal> {
    Ok(u64::from(given(truth)?))
}

fn of_number(number: Told<SeqNum>) -> Result<u64, Refusal> {
    Ok(u64::from(given(number)?.0))
}

// Is the answer the recorded one, by its number and its value, which is 0 for a refusal?
fn is_answer(answer: Result<u64, Refusal>, number: u64, value: u64) -> bool {
    match answer {
        Ok(n) => (number, value) == (0, n),
        Err(refusal) => (number, value) == (refusal.number() as u64, 0),
    }
}

// Is it answered, with the recorded value?
fn is_told(answer: Result<u64, Refusal>, value: u64) -> bool {
    answer.is_ok_and(|n| n == value)
}

// How many bytes were read.
fn read_len(event: &[u8]) -> usize
    ensures { result ≤ 65536 }
{
    (number(event, 7, 4) % 65537) as usize
}

// How many bytes the event has.
fn size_of(kind: Kind, event: &[u8]) -> usize {
    match kind {
        Kind::Write => 12 + two(event, 3) as usize,
        Kind::Read => 15 + read_len(event),
        Kind::Ack => 9 + two(event, 7) as usize,
        Kind::Ask => 23,
        Kind::Run => 7,
    }
}

// The recorded answer.
fn answer_of(kind: Kind, event: &[u8]) -> u64 {
    match kind {
        Kind::Write => number(behind_part(behind(event, 3)), 0, 1),
        Kind::Read => number(event, 5, 1),
        Kind::Ack | Kind::Ask | Kind::Run => number(event, 3, 1),
    }
}

// What comparing an event tells: its kind, how many bytes it has, the answer that it records, and
// whether all that the receiver answered is as recorded.
#[derive(Clone, Copy)]
pub(crate) struct Compared {
    pub kind: Kind,
    pub size: usize,
    pub answer: u64,
    pub is_same: bool,
}

// A receiver, with the buffer that is lent to it, and room for what it is asked for.
#[derive(Drop)]
pub(crate) struct Receiver<'a, 'b> {
    pub state: ReceiveBuffer,
    pub buffer: &'a mut [u8],
    pub room: &'b mut [u8],
}

impl Receiver<'_, '_> {
    // Does what the first event of these bytes says, and compares. An event of a kind that there is
    // not counts as a run, and differs, as one does that is cut off.
    pub(crate) fn compare(&mut self, event: &[u8]) -> Compared {
        let (kind, is_same) = match Kind::try_from(number(event, 0, 1)) {
            Ok(kind) => (kind, self.is_same(kind, event)),
            Err(UnknownKind) => (Kind::Run, false),
        };
        let size = size_of(kind, event);
        Compared {
            kind,
            size,
            answer: answer_of(kind, event),
            is_same: is_same && size <= event.len(),
        }
    }

    fn is_same(&mut self, kind: Kind, event: &[u8]) -> bool {
        match kind {
            Kind::Write => self.write(event),
            Kind::Read => self.read(event),
            Kind::Ack => self.ack(event),
            Kind::Ask => self.ask(event),
            Kind::Run => self.run(event),
        }
    }

    // Number, payload; behind the payload answer, source, already there, available.
    fn write(&mut self, event: &[u8]) -> bool {
        let payload = behind(event, 3);
        let seen = behind_part(payload);
        let seq_num = SeqNum(two(event, 1));
        let written = self.state.write(self.buffer, seq_num, part(payload));
        self.state = written.state;
        is_answer(
            of_writing(written.answer),
            number(seen, 0, 1),
            number(seen, 2, 1),
        ) && is_told(of_count(self.state.available()), number(seen, 3, 4))
    }

    // As many bytes are read as the output holds. An output of just the length asked for is lent.
    // Behind the length: answer, source, count and that many bytes, available.
    fn read(&mut self, event: &[u8]) -> bool {
        let Some(out) = self.room.get_mut(..four(event, 1) as usize) else {
            return false;
        };
        fill(out);
        let taken = self.state.read(self.buffer, out);
        self.state = taken.state;
        let len = read_len(event);
        is_answer(
            of_count(taken.answer),
            number(event, 5, 1),
            number(event, 7, 4),
        ) && holds(out, front(behind(event, 11), len))
            && is_told(of_count(self.state.available()), number(event, 11 + len, 4))
    }

    // The ack number and the selective ACK. Room of just the length asked for is lent. Behind the
    // room for the SACK: answer, source, ack number, the SACK's length and bytes.
    fn ack(&mut self, event: &[u8]) -> bool {
        let Some(out) = self.room.get_mut(..two(event, 1) as usize) else {
            return false;
        };
        fill(out);
        let count = self.state.selective_ack(out);
        is_answer(of_count(count), number(event, 3, 1), number(event, 7, 2))
            && holds(out, part(behind(event, 7)))
            && is_told(of_number(self.state.ack_num()), number(event, 5, 2))
    }

    // What a caller may ask: number, answer, source, was it written, is it empty, available, ready,
    // waiting bytes, waiting payloads, c.
    fn ask(&self, event: &[u8]) -> bool {
        let state = &self.state;
        let was_written = state.was_written(SeqNum(two(event, 1)));
        number(event, 3, 1) == 0
            && is_told(of_truth(was_written), number(event, 5, 1))
            && is_told(of_truth(state.is_empty()), number(event, 6, 1))
            && is_told(of_count(state.available()), number(event, 7, 4))
            && is_told(of_count(state.ready()), number(event, 11, 4))
            && is_told(of_count(state.waiting_bytes()), number(event, 15, 4))
            && is_told(of_count(state.waiting()), number(event, 19, 2))
            && is_told(of_count(state.count()), number(event, 21, 2))
    }

    // Count, answer, source, c. So many writes in a row of the next number in order.
    fn run(&mut self, event: &[u8]) -> bool {
        let mut is_stored = true;
        for _ in 0..two(event, 1) {
            is_stored &= self.write_next();
        }
        is_stored
            && number(event, 3, 1) == 0
            && is_told(of_count(self.state.count()), number(event, 5, 2))
    }

    // Is an empty payload stored under the next number in order?
    fn write_next(&mut self) -> bool {
        let Told::Is(last) = self.state.ack_num() else {
            return false;
        };
        let written = self.state.write(self.buffer, last.plus(1), b"");
        self.state = written.state;
        matches!(written.answer, Writing::Stored)
    }
}

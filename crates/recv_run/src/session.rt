// A run of one receiver.
use crate::payload::{Bytes, fill, size_of};
use crate::totals::Totals;
use recv::{ReceiveBuffer, Told};
use seq::SeqNum;

// The receiver, with the buffer that is lent to it; the number that was drawn last; the bytes that
// are to be read next; and what has happened so far.
#[derive(Drop)]
struct Session {
    initial: SeqNum,
    state: ReceiveBuffer,
    buffer: [u8; 4096],
    drawn: u64,
    sent: Bytes,
    totals: Totals,
}

// Marsaglia's xorshift of 64 bits.
// (voyage has it too: payload.rt says why.)
fn next(seed: u64) -> u64 {
    let a = seed ^ (seed << 13);
    let b = a ^ (a >> 7);
    b ^ (b << 17)
}

// How far past the acknowledged number a payload arrives: mostly near, now and then too far ahead.
fn distance(drawn: u64) -> u16 {
    if (drawn / 1024) % 8 == 0 {
        (drawn % 280) as u16
    } else {
        (drawn % 5) as u16
    }
}

// How many, unless that is refused.
// (No From in the port: document 01 wants its own enums there in place of Result.)
fn counted(answer: Told<usize>) -> Option<usize> {
    match answer {
        Told::Is(n) => Some(n),
        Told::Refused(_) => None,
    }
}

impl Session {
    fn new(initial: SeqNum, seed: u64) -> Self {
        let created = ReceiveBuffer::new(initial, 4096);
        Self {
            initial,
            state: created.state,
            buffer: [0; 4096],
            drawn: seed,
            sent: Bytes::new(),
            totals: Totals::default(),
        }
    }

    // The number of the payload that arrives.
    fn arriving(&self) -> SeqNum {
        match self.state.ack_num() {
            Told::Is(ack) => ack.plus(distance(self.drawn)),
            Told::Refused(_) => self.initial,
        }
    }

    // One payload arrives.
    fn write(&mut self) {
        let number = self.arriving();
        let offset = number.offset_from(self.initial).0 as u32;
        let mut room = [0u8; 120];
        let payload = &mut room[..size_of(offset)];
        fill(payload, offset);
        let state = self.state;
        let written = state.write(&mut self.buffer, number, payload);
        self.state = written.state;
        self.totals.written(written.answer);
    }

    // Up to 199 bytes are read, and compared with those that were sent.
    fn read(&mut self) {
        let mut room = [0u8; 200];
        let out = &mut room[..((self.drawn / 65536) % 200) as usize];
        let state = self.state;
        let taken = state.read(&mut self.buffer, out);
        self.state = taken.state;
        if let Some(n) = counted(taken.answer) {
            let compared = out.iter().take(n).zip(self.sent.by_ref());
            let wrong = compared.filter(|(read, sent)| **read != *sent).count();
            self.totals.taken(n.min(out.len()), wrong);
        }
    }

    // An acknowledgement is built.
    fn acknowledge(&mut self) {
        let mut room = [0u8; 32];
        if let Some(n) = counted(self.state.selective_ack(&mut room)) {
            self.totals.acked(n);
        }
    }

    fn step(&mut self) {
        self.drawn = next(self.drawn);
        self.write();
        self.read();
        if self.drawn % 16 == 0 {
            self.acknowledge();
        }
    }
}

// The steps of a receiver.
const STEPS: u32 = 40000;

// What happens in a run from an initial number, with the numbers of a seed.
pub(crate) fn run(initial: SeqNum, seed: u64) -> Totals {
    let mut session = Session::new(initial, seed);
    for _ in 0..STEPS {
        session.step();
    }
    session.totals
}

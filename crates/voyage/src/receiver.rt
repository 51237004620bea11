// What the receiver does: payloads that arrive, reads, and acks that it builds.
use crate::book::Book;
use crate::counts::add;
use crate::plan::{Plan, byte_of};
use crate::refusal::Refusal;
use crate::told::Told;
use packet::decode::Packet;
use packet::header::Header;
use packet::kind::PacketType;
use recv::{ReceiveBuffer, Writing};
use report::text::front;
use seq::SeqNum;

// The receiver, with the buffer that is lent to it, and which byte is to be read next: byte `at` of
// the payload of `offset`.
#[derive(Drop)]
pub(crate) struct Receiver<'a> {
    state: ReceiveBuffer,
    buffer: &'a mut [u8],
    offset: u32,
    at: usize,
}

// (No From in the port: document 01 wants its own enums there in place of Result.)
fn given<T>(told: recv::Told<T>) -> Result<T, Refusal> {
    match told {
        recv::Told::Is(value) => Ok(value),
        recv::Told::Refused(why) => Err(Refusal::from(why)),
    }
}

impl<'a> Receiver<'a> {
    // A fresh one, over a buffer.
    pub(crate) fn new(plan: &Plan, buffer: &'a mut [u8]) -> Self {
        let created = ReceiveBuffer::new(plan.initial, buffer.len());
        Self {
            state: created.state,
            buffer,
            offset: 1,
            at: 0,
        }
    }

    // All was read.
    pub(crate) fn is_done(&self) -> bool {
        self.state.ready == 0
    }

    // The last number in order, where it is told.
    fn ack_num(&self) -> Option<SeqNum> {
        given(self.state.ack_num()).ok()
    }

    // A packet arrives, in a datagram.
    pub(crate) fn arrive(&mut self, packet: Packet, datagram: &[u8]) -> Told {
        let number = packet.header.seq_num;
        let before = self.ack_num();
        let payload = packet.payload.bytes(datagram);
        let written = self.state.write(self.buffer, number, payload);
        self.state = written.state;
        match written.answer {
            Writing::Stored => self.stored(number, before),
            Writing::AlreadyThere => Told::WroteAgain(number),
            Writing::Refused(why) => Told::Unwritten(number, Refusal::from(why)),
        }
    }

    // A stored payload waits unless the ack number moved.
    fn stored(&self, number: SeqNum, before: Option<SeqNum>) -> Told {
        match (before, self.ack_num()) {
            (Some(before), Some(after)) if before.0 != after.0 => Told::Wrote(number, after),
            _ => Told::Waits(number),
        }
    }

    // Past a payload that has been read whole.
    // (recv_run has it too: plan.rt says why.)
    fn skip(&mut self, plan: &Plan) {
        if self.at >= plan.size_of(self.offset) {
            self.offset = self.offset.wrapping_add(1);
            self.at = 0;
        }
    }

    // The byte that is to be read next. No two payloads in a row are empty.
    fn next_byte(&mut self, plan: &Plan) -> u8 {
        self.skip(plan);
        self.skip(plan);
        let byte = byte_of(plan.payload(self.offset), self.at as u64);
        self.at = self.at.wrapping_add(1);
        byte
    }

    // Compares bytes that were read, in order, with those that were sent.
    fn compare(&mut self, book: &mut Book, bytes: &[u8]) {
        for byte in bytes {
            if *byte != self.next_byte(&book.plan) {
                add(&mut book.counts.wrong, 1);
            }
        }
        add(&mut book.counts.bytes_out, bytes.len() as u64);
    }

    // Up to so many bytes are read, and each is compared.
    pub(crate) fn read(&mut self, book: &mut Book, most: u64) {
        let mut room = [0u8; 4096];
        let out = &mut room[..(most % 4096) as usize];
        let taken = self.state.read(self.buffer, out);
        self.state = taken.state;
        match given(taken.answer) {
            Ok(n) => {
                self.compare(book, front(out, n));
                book.tell(Told::Read(n));
            }
            Err(refusal) => book.tell(Told::Unread(refusal)),
        }
    }

    // The free room that an ack's header tells, or 0.
    fn window(&self) -> u32 {
        given(self.state.available()).map_or(0, |n| (n % 4294967296) as u32)
    }

    // The ack number, and how many bytes of SACK are put into this room.
    fn acknowledge(&self, room: &mut [u8]) -> Result<(SeqNum, usize), Refusal> {
        let size = given(self.state.selective_ack(room))?;
        let number = given(self.state.ack_num())?;
        Ok((number, size))
    }

    // An ack is built, with room for so many bytes of SACK, and goes into the channel. It tells the
    // free room of the same moment, and a delay that was drawn.
    pub(crate) fn build(&self, book: &mut Book, most: u64) {
        let mut room = [0u8; 4096];
        let room = &mut room[..(most % 4096) as usize];
        match self.acknowledge(room) {
            Ok((number, size)) => {
                let header = Header {
                    packet_type: PacketType::State,
                    conn_id: 4660,
                    ts_micros: (book.clock % 4294967296) as u32,
                    ts_diff_micros: 50000 + (book.drawn / 4096 % 250000) as u32,
                    window_size: self.window(),
                    seq_num: SeqNum(0),
                    ack_num: number,
                };
                let sack = front(room, size);
                book.put(header, sack, b"");
                book.tell(Told::Built(number, sack.len()));
            }
            Err(refusal) => book.tell(Told::Unbuilt(refusal)),
        }
    }
}

// What the sender does: transmits, retransmissions, a timeout, and acks that it hears.
use crate::book::Book;
use crate::counts::add;
use crate::plan::{Plan, fill, kind_of};
use crate::refusal::Refusal;
use crate::told::Told;
use crate::tracker::Tracker;
use packet::decode::Packet;
use packet::header::Header;
use seq::SeqNum;

#[derive(Drop)]
pub(crate) struct Sender<'a> {
    tracker: Tracker<'a>,
}

// The packet of a number, with the payload of its offset, goes into the channel.
fn goes_out(book: &mut Book, number: SeqNum, offset: u32, size: usize) {
    let header = Header {
        packet_type: kind_of(size),
        conn_id: 4660,
        ts_micros: (book.clock % 4294967296) as u32,
        ts_diff_micros: 0,
        window_size: 0,
        seq_num: number,
        ack_num: SeqNum(0),
    };
    let mut room = [0u8; 4096];
    let payload = &mut room[..size.min(4096)];
    fill(payload, book.plan.payload(offset));
    book.put(header, b"", payload);
}

// What is told of a packet that goes out: for the first time, or again.
// (A flag: which of the two is asked before the tracker takes it, and told after.)
fn tell_sent(book: &mut Book, number: SeqNum, size: usize, is_first: bool) {
    if is_first {
        add(&mut book.counts.packets, 1);
        add(&mut book.counts.bytes_in, size as u64);
        book.tell(Told::Sent(number, size));
    } else {
        add(&mut book.counts.again, 1);
        book.tell(Told::SentAgain(number));
    }
}

impl<'a> Sender<'a> {
    pub(crate) fn new(tracker: Tracker<'a>) -> Self {
        Self { tracker }
    }

    // All was sent and acknowledged.
    pub(crate) fn is_done(&self, plan: &Plan) -> bool {
        plan.to_send <= self.tracker.sent() && self.tracker.live() == 0
    }

    // A packet is sent, or sent again, at a time. Only what the tracker takes goes out.
    fn transmit(&mut self, book: &mut Book, number: SeqNum, clock: u64) {
        let offset = book.plan.offset_of(number);
        let size = book.plan.size_of(offset);
        let len = (size % 65536) as u32;
        let is_first = offset > self.tracker.sent();
        match self
            .tracker
            .on_transmit(number, kind_of(size), offset, len, clock)
        {
            Ok(()) => {
                goes_out(book, number, offset, size);
                tell_sent(book, number, size, is_first);
            }
            Err(refusal) => book.tell(Told::Unsent(number, refusal)),
        }
    }

    // A packet is sent, if one is due.
    fn transmit_due(&mut self, book: &mut Book, due: Result<Option<SeqNum>, Refusal>, clock: u64) {
        match due {
            Ok(Some(number)) => self.transmit(book, number, clock),
            Ok(None) => {}
            Err(refusal) => book.tell(Told::Unsent(SeqNum(0), refusal)),
        }
    }

    // May the next packet go? There is one, and the receiver will have room for all that was sent,
    // or nothing else is on its way.
    fn may_send(&self, book: &Book) -> bool {
        let sent = self.tracker.sent();
        if sent >= book.plan.to_send {
            return false;
        }
        if self.tracker.live() == 0 {
            return true;
        }
        let size = book.plan.size_of(sent.wrapping_add(1)) as u64;
        let unread = book.counts.bytes_in.wrapping_sub(book.counts.bytes_out);
        unread.wrapping_add(size) <= book.plan.length as u64
    }

    // The next packet, if it may go. One that is so far past the next is only offered to the
    // tracker.
    fn next_due(&self, book: &Book, far: u64) -> Result<Option<SeqNum>, Refusal> {
        if far == 0 && !self.may_send(book) {
            return Ok(None);
        }
        let next = self.tracker.next_seq_num()?;
        Ok(Some(next.plus((far % 65536) as u16)))
    }

    // The lost packet at a position, which is taken round the list.
    fn lost_due(&self, position: u64) -> Result<Option<SeqNum>, Refusal> {
        let count = self.tracker.lost_count().unwrap_or(0);
        if count == 0 {
            return Ok(None);
        }
        let lost = self.tracker.lost_at((position % count % 65536) as u32)?;
        Ok(Some(lost.seq_num))
    }

    // The next packet is sent, by a clock that is so far back.
    pub(crate) fn send(&mut self, book: &mut Book, far: u64, back: u64) {
        let due = self.next_due(book, far);
        let clock = book.clock.saturating_sub(back);
        self.transmit_due(book, due, clock);
    }

    // A lost packet is sent again.
    pub(crate) fn send_lost(&mut self, book: &mut Book, position: u64) {
        let due = self.lost_due(position);
        let clock = book.clock;
        self.transmit_due(book, due, clock);
    }

    // After a timeout event all that is not acknowledged is sent again.
    pub(crate) fn time_out(&mut self, book: &mut Book) {
        if let Err(refusal) = self.tracker.on_timeout() {
            book.tell(Told::Unsent(SeqNum(0), refusal));
            return;
        }
        let before = book.counts.again;
        let clock = book.clock;
        for place in 0..self.tracker.live() {
            if let Some(number) = self.tracker.unacknowledged(place) {
                self.transmit(book, number, clock);
            }
        }
        book.tell(Told::TimedOut(book.counts.again.wrapping_sub(before)));
    }

    // An ack is heard, in a datagram.
    pub(crate) fn hear(&mut self, packet: Packet, datagram: &[u8], clock: u64) -> Told {
        let number = packet.header.ack_num;
        let sack = packet.sack.bytes(datagram);
        let delay = u64::from(packet.header.ts_diff_micros);
        match self.tracker.on_ack(number, sack, delay, clock) {
            Ok(()) => Told::Heard(number, sack.len()),
            Err(refusal) => Told::Unheard(number, refusal),
        }
    }
}

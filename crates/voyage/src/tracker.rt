// The sender's tracker: its head, and the samples and packets that are lent to each call beside it.
// What it refuses is handed on as a Refusal.
use crate::refusal::Refusal;
use outgoing::answer::{LostPacket, Outcome, Told};
use packet::kind::PacketType;
use sent::head::Head;
use sent::packets::Packets;
use sent::place::Place;
use sent_lent::columns::Columns;
use sent_lent::pairs::Pairs;
use seq::SeqNum;

#[derive(Drop)]
pub(crate) struct Tracker<'a> {
    pub head: Head,
    pub samples: &'a mut Pairs,
    pub packets: &'a mut Columns,
}

fn of_outcome(outcome: Outcome) -> Result<(), Refusal> {
    match outcome {
        Outcome::Done => Ok(()),
        Outcome::Refused(reason) => Err(Refusal::from(reason)),
    }
}

// (No From in the port: document 01 wants its own enums there in place of Result.)
fn given<T>(told: Told<T>) -> Result<T, Refusal> {
    match told {
        Told::Is(value) => Ok(value),
        Told::Refused(reason) => Err(Refusal::from(reason)),
    }
}

impl Tracker<'_> {
    // How many packets were sent.
    pub(crate) fn sent(&self) -> u32 {
        self.head.count
    }

    // How many places of packets are in use.
    pub(crate) fn live(&self) -> u32 {
        self.head.live
    }

    // The number of the packet at a place, if it is not acknowledged.
    pub(crate) fn unacknowledged(&self, place: u32) -> Option<SeqNum> {
        let at = place as usize;
        if 512 <= at {
            return None;
        }
        if !self.packets.packet_at(Place { at }).unacked() {
            return None;
        }
        let Head {
            initial,
            count,
            live,
            ..
        } = self.head;
        let before = count.wrapping_sub(live);
        Some(SeqNum(initial).at(before.wrapping_add(place).wrapping_add(1)))
    }

    pub(crate) fn next_seq_num(&self) -> Result<SeqNum, Refusal> {
        let head = self.head;
        given(head.next_seq_num(self.samples, self.packets))
    }

    // How many packets are listed as lost.
    pub(crate) fn lost_count(&self) -> Result<u64, Refusal> {
        let head = self.head;
        given(head.lost_count(self.samples, self.packets))
    }

    // The lost packet at a position of that list.
    pub(crate) fn lost_at(&self, position: u32) -> Result<LostPacket, Refusal> {
        let head = self.head;
        given(head.lost_at(self.samples, self.packets, position))
    }

    pub(crate) fn on_transmit(
        &mut self,
        number: SeqNum,
        kind: PacketType,
        tag: u32,
        len: u32,
        clock: u64,
    ) -> Result<(), Refusal> {
        let stepped = self
            .head
            .on_transmit(self.samples, self.packets, number, kind, tag, len, clock);
        self.head = stepped.head;
        of_outcome(stepped.answer)
    }

    pub(crate) fn on_ack(
        &mut self,
        number: SeqNum,
        sack: &[u8],
        delay: u64,
        clock: u64,
    ) -> Result<(), Refusal> {
        let stepped = self
            .head
            .on_ack(self.samples, self.packets, number, sack, delay, clock);
        self.head = stepped.head;
        of_outcome(stepped.answer)
    }

    pub(crate) fn on_timeout(&mut self) -> Result<(), Refusal> {
        let head = self.head;
        let stepped = head.on_timeout(self.samples, self.packets);
        self.head = stepped.head;
        of_outcome(stepped.answer)
    }
}

// The book of a run: how it goes on, what the channel holds, and what was told and counted.
use crate::channel::{Channel, Held, PutError};
use crate::counts::{Counts, add};
use crate::plan::{Plan, key, next};
use crate::refusal::Refusal;
use crate::step::Way;
use crate::told::Told;
use packet::decode::{Decoded, Packet};
use packet::header::Header;
use packet::kind::PacketType;

#[derive(Drop)]
pub(crate) struct Book {
    pub plan: Plan,
    // The number that was drawn last.
    pub drawn: u64,
    pub clock: u64,
    pub channel: Channel,
    // What the step told.
    pub told: Told,
    pub counts: Counts,
}

// A packet that the channel hands over, with its datagram, by a clock that is so far back.
#[derive(Clone, Copy)]
pub(crate) struct Handed {
    pub packet: Packet,
    pub held: Held,
    pub back: u64,
}

impl Book {
    // Before the first step.
    pub(crate) fn new(plan: Plan) -> Self {
        Self {
            plan,
            drawn: key(plan.seed, 0),
            clock: 1000000,
            channel: Channel::new(),
            told: Told::Nothing,
            counts: Counts::new(),
        }
    }

    // Time goes on, a number is drawn, and nothing is told yet.
    pub(crate) fn go_on(&mut self) {
        self.drawn = next(self.drawn);
        self.clock = self.clock.wrapping_add(self.drawn / 65536 % 20000);
        self.told = Told::Nothing;
    }

    // Notes what a step told, and counts a refusal.
    pub(crate) fn tell(&mut self, told: Told) {
        self.told = told;
        if let Some(refusal) = told.refusal() {
            self.counts.refuse(refusal);
        }
    }

    // A packet goes into the channel. Where all places are held it is lost; what the writer refuses
    // is counted.
    pub(crate) fn put(&mut self, header: Header, sack: &[u8], payload: &[u8]) {
        let depth = self.plan.depth;
        match self.channel.put(depth, header, sack, payload) {
            Ok(()) => {}
            Err(PutError::Full) => add(&mut self.counts.lost, 1),
            Err(PutError::Refused(refusal)) => self.counts.refuse(refusal),
        }
    }

    // The channel does something with the first datagram from the place `start` on. It stays there,
    // or leaves it.
    pub(crate) fn pass(&mut self, way: Way, start: u64) -> Option<Handed> {
        let held = self.channel.pick(start)?;
        match way {
            Way::Repeat => add(&mut self.counts.repeated, 1),
            Way::Hand(_) | Way::Lose => self.channel.free(held),
        }
        match Packet::decode(self.channel.bytes(held)) {
            Decoded::Accepted(packet) => self.go(way, packet, held),
            Decoded::Undecoded(why) => {
                self.tell(Told::Undecoded(Refusal::from(why)));
                None
            }
        }
    }

    // A packet goes a way.
    fn go(&mut self, way: Way, packet: Packet, held: Held) -> Option<Handed> {
        let back = match way {
            Way::Hand(back) => back,
            Way::Repeat => 0,
            Way::Lose => {
                self.lose(packet.header);
                return None;
            }
        };
        Some(Handed { packet, held, back })
    }

    // A packet is lost. An ack is a State.
    fn lose(&mut self, header: Header) {
        add(&mut self.counts.lost, 1);
        self.tell(match header.packet_type {
            PacketType::State => Told::LostAck(header.ack_num),
            _ => Told::LostPacket(header.seq_num),
        });
    }
}

// A transmit: the first of a packet, or a retransmission.
ghost use Rattle.std.specs.Prelude.{◌≡◌, true, ◌≤◌, ◌<◌};
ghost use Rattle.outgoing.specs.Answers.{outcome};
ghost use Rattle.outgoing.specs.Tracker.{clocked_of};
ghost use Rattle.outgoing.specs.Transmit.{transmit_check, resent_of, recorded_of};
ghost use Rattle.sent.specs.Full.{Full};
ghost use Rattle.sent.specs.State.{state_sound_of, when_state_sound, tracker_of, written_of, transmit_answer};
ghost use Rattle.sent.specs.Whole.{whole_of, stepped, headed};

use crate::head::{Head, Stepped};
use crate::packets::Packets;
use crate::place::Place;
use controller::samples::Samples;
use outgoing::answer::{Outcome, Reason};
use outgoing::kept::Packet;
use outgoing::transmit::transmit_check;
use packet::kind::PacketType;
use seq::SeqNum;

impl Head {
    // A retransmission, which is noted where the packet is still kept.
    fn resent<S: Samples, P: Packets>(
        self,
        samples: &S,
        packets: &mut P,
        offset: u32,
        clock: u64,
    ) -> Head
        requires sound { state_sound_of (whole_of self (S.samples samples.now) (P.packets packets.old)) ≡ true }
        requires sent { offset ≤ self.count }
        requires full { Full P.packets P.of_packets packets.old }
        ensures resent { let s = whole_of self (S.samples samples.now) (P.packets packets.old) in
            whole_of result (S.samples samples.now) (P.packets packets.new) ≡ written_of s (clocked_of (resent_of (tracker_of s) offset) clock) }
        ensures full { Full P.packets P.of_packets packets.new }
    {
        let gone = self.count - self.live;
        let mut next = self;
        next.numbers = self.numbers.accepted(clock);
        if offset <= gone {
            return next;
        }
        let place = Place {
            at: (offset - gone - 1) as usize,
        };
        let p = packets.packet_at(place);
        packets.put_packet(place, p.sent_again());
        next
    }

    // A first transmit, which is recorded behind the last.
    fn recorded<S: Samples, P: Packets>(
        self,
        samples: &S,
        packets: &mut P,
        packet: Packet,
        clock: u64,
    ) -> Head
        requires sound { state_sound_of (whole_of self (S.samples samples.now) (P.packets packets.old)) ≡ true }
        requires room { self.live < 512 }
        requires full { Full P.packets P.of_packets packets.old }
        ensures recorded { let s = whole_of self (S.samples samples.now) (P.packets packets.old) in
            whole_of result (S.samples samples.now) (P.packets packets.new) ≡ written_of s (clocked_of (recorded_of (tracker_of s) packet) clock) }
        ensures full { Full P.packets P.of_packets packets.new }
    {
        let mut next = self;
        next.count = self.count + 1;
        next.live = self.live + 1;
        next.numbers = self.numbers.transmitted(packet.len).accepted(clock);
        let place = Place {
            at: self.live as usize,
        };
        packets.put_packet(place, packet);
        next
    }

    // What the soundness test and then the checks say of a transmit.
    fn may_transmit<S: Samples, P: Packets>(
        self,
        samples: &S,
        packets: &P,
        offset: u32,
        len: u32,
        clock: u64,
    ) -> Outcome
        ensures checked { let s = whole_of self (S.samples samples.now) (P.packets packets.now) in
            outcome result ≡ when_state_sound s (transmit_check self.numbers self.count self.live offset len clock) }
        ensures alone { S.of_samples (S.samples samples.now) ≡ samples.now }
        ensures full { Full P.packets P.of_packets packets.now }
    {
        if !self.sound(samples, packets) {
            return Outcome::Refused(Reason::NotSound);
        }
        transmit_check(self.numbers, self.count, self.live, offset, len, clock)
    }

    // A packet goes out. Up to the last number sent it is a retransmission, whatever its length.
    // The samples stay as they are. Refused with 19, 11, 12, and a first transmit with 15, 13, 14,
    // in this order.
    // (Document 01: "Transmit, with number, type, 32-bit tag, length, now".)
    pub fn on_transmit<S: Samples, P: Packets>(
        self,
        samples: &S,
        packets: &mut P,
        number: SeqNum,
        packet_type: PacketType,
        tag: u32,
        len: u32,
        clock: u64,
    ) -> Stepped
        ensures answer { let s = whole_of self (S.samples samples.now) (P.packets packets.old) in
            stepped result ≡ headed (transmit_answer s number packet_type tag len clock) }
        ensures samples { let s = whole_of self (S.samples samples.now) (P.packets packets.old) in
            samples.now ≡ S.of_samples (transmit_answer s number packet_type tag len clock).1.delays.kept }
        ensures packets { let s = whole_of self (S.samples samples.now) (P.packets packets.old) in
            packets.new ≡ P.of_packets (transmit_answer s number packet_type tag len clock).1.packets }
    {
        let offset = number.offset_from(SeqNum(self.initial)).0 as u32;
        let check = self.may_transmit(samples, packets, offset, len, clock);
        if let Outcome::Refused(reason) = check {
            return self.refused(reason);
        }
        if offset <= self.count {
            return Stepped {
                answer: Outcome::Done,
                head: self.resent(samples, packets, offset, clock),
            };
        }
        let packet = Packet {
            sent_at: clock,
            tag,
            len,
            kind: packet_type.number(),
            acked: 0,
            lost: 0,
            resent: 0,
        };
        Stepped {
            answer: Outcome::Done,
            head: self.recorded(samples, packets, packet, clock),
        }
    }
}

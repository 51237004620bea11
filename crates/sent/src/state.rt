// The tracker as one value, which may be forged: each call takes head, samples and packets apart,
// is that of the head over the two arrays, and puts together what it leaves.
ghost use Rattle.std.specs.Prelude.{◌≡◌};
ghost use Rattle.outgoing.specs.Answers.{answer_told};
ghost use Rattle.outgoing.specs.Lost.{lost_at_of};
ghost use Rattle.outgoing.specs.Read.{timeout_in, window_in, in_flight_in, maximum_in, ack_num_in, next_seq_num_in, seq_num_range_in, has_unacked_in, lost_count_in, has_lost_in};
ghost use Rattle.sent.specs.Answers.{told};
ghost use Rattle.sent.specs.State.{state_sound_of, new_answer, transmit_answer, ack_answer, timeout_answer, read_of, when_state_sound, tracker_of};
ghost use Rattle.sent.specs.Whole.{whole_of, head_of, stepped};

use crate::answer::Tracked;
use crate::head::{Head, Stepped};
use congestion::numbers::Numbers;
use congestion::settings::Settings;
use controller::delays::{Delays, Sample};
use outgoing::answer::{LostPacket, Told};
use outgoing::kept::Packet;
use packet::kind::PacketType;
use seq::{CircularRangeInclusive, SeqNum};

// `count` packets were sent, with offsets 1 to `count` from `initial`. The last `live` of them,
// from the first unacknowledged one on, stand at the front of `packets` in order; what stands past
// them is left as it was.
// (`Head` has four of these too: docs/STATE.md, specs/ and delivery's theorem name them flat.)
#[repr(C)]
#[derive(Clone, Copy)]
pub struct SentPackets {
    pub initial: u16,
    pub count: u32,
    pub live: u32,
    pub numbers: Numbers,
    pub delays: Delays,
    pub packets: [Packet; 512],
}

// The answer, beside the state that the head makes up with these samples and packets.
fn tracked(next: Stepped, samples: [Sample; 1024], packets: [Packet; 512]) -> Tracked
    ensures { told result ≡ ((stepped next).0, whole_of next.head samples packets) }
{
    let head = next.head;
    Tracked {
        answer: next.answer,
        state: SentPackets {
            initial: head.initial,
            count: head.count,
            live: head.live,
            numbers: head.numbers,
            delays: Delays {
                kept: samples,
                count: head.kept,
            },
            packets,
        },
    }
}

impl SentPackets {
    // How many packets may be kept, and how many may be sent.
    pub const PLACES: u32 = Packet::PLACES;

    pub const MOST_SENT: u32 = Packet::MOST_SENT;

    // The tracker apart from its samples and packets.
    fn head(&self) -> Head
        ensures { result ≡ head_of self.now }
    {
        Head {
            initial: self.initial,
            count: self.count,
            live: self.live,
            kept: self.delays.count,
            numbers: self.numbers,
        }
    }

    // Does it pass the soundness test?
    pub fn sound(self) -> bool
        ensures { result ≡ state_sound_of self }
    {
        self.head().sound(&self.delays.kept, &self.packets)
    }

    // A fresh tracker, whose first packet has the number after `initial`. Refused with 10 where a
    // setting is out of range; what is then handed back is not sound.
    pub fn new(initial: SeqNum, settings: Settings) -> Tracked
        ensures { told result ≡ new_answer initial settings }
    {
        let none = Packet {
            sent_at: 0,
            tag: 0,
            len: 0,
            kind: 0,
            acked: 0,
            lost: 0,
            resent: 0,
        };
        let samples = Delays::none().kept;
        tracked(Head::new(initial, settings), samples, [none; 512])
    }

    // A packet goes out. Up to the last number sent it is a retransmission, whatever its length.
    // Refused with 19, 11, 12, and a first transmit with 15, 13, 14, in this order.
    // (Document 01: "Transmit, with number, type, 32-bit tag, length, now".)
    pub fn on_transmit(
        self,
        number: SeqNum,
        packet_type: PacketType,
        tag: u32,
        len: u32,
        clock: u64,
    ) -> Tracked
        ensures { told result ≡ transmit_answer self number packet_type tag len clock }
    {
        let samples = self.delays.kept;
        let mut packets = self.packets;
        let next = self.head().on_transmit(
            &samples,
            &mut packets,
            number,
            packet_type,
            tag,
            len,
            clock,
        );
        tracked(next, samples, packets)
    }

    // An ack arrives. An empty SACK means none. Refused with 19, 11, 5, 6, 8, 12, in this order.
    pub fn on_ack(self, number: SeqNum, sack: &[u8], delay: u64, clock: u64) -> Tracked
        ensures { told result ≡ ack_answer self number sack.now delay clock }
    {
        let mut samples = self.delays.kept;
        let mut packets = self.packets;
        let next = self
            .head()
            .on_ack(&mut samples, &mut packets, number, sack, delay, clock);
        tracked(next, samples, packets)
    }

    // A timeout event: the maximum falls to the minimum and the timeout is doubled. Refused with
    // 19.
    pub fn on_timeout(self) -> Tracked
        ensures { told result ≡ timeout_answer self }
    {
        let samples = self.delays.kept;
        let packets = self.packets;
        let next = self.head().on_timeout(&samples, &packets);
        tracked(next, samples, packets)
    }

    // What follows asks the head. Each is promised of the tracker as one value, too.
    // The timeout. Refused with 19.
    pub fn timeout(self) -> Told<u64>
        ensures { answer_told result ≡ read_of self timeout_in }
    {
        self.head().timeout(&self.delays.kept, &self.packets)
    }

    // How many bytes may be sent now. Refused with 19.
    pub fn window(self) -> Told<u64>
        ensures { answer_told result ≡ read_of self window_in }
    {
        self.head().window(&self.delays.kept, &self.packets)
    }

    // The bytes in flight. Refused with 19.
    pub fn in_flight(self) -> Told<u64>
        ensures { answer_told result ≡ read_of self in_flight_in }
    {
        self.head().in_flight(&self.delays.kept, &self.packets)
    }

    // The maximum of the window. Refused with 19.
    pub fn maximum(self) -> Told<u64>
        ensures { answer_told result ≡ read_of self maximum_in }
    {
        self.head().maximum(&self.delays.kept, &self.packets)
    }

    // The last number of the acknowledged run, or 0 if none. Refused with 19.
    pub fn ack_num(self) -> Told<SeqNum>
        ensures { answer_told result ≡ read_of self ack_num_in }
    {
        self.head().ack_num(&self.delays.kept, &self.packets)
    }

    // The number of the next packet. Refused with 19.
    pub fn next_seq_num(self) -> Told<SeqNum>
        ensures { answer_told result ≡ read_of self next_seq_num_in }
    {
        self.head().next_seq_num(&self.delays.kept, &self.packets)
    }

    // The numbers from the initial one to the last sent. Refused with 19.
    pub fn seq_num_range(self) -> Told<CircularRangeInclusive>
        ensures { answer_told result ≡ read_of self seq_num_range_in }
    {
        self.head().seq_num_range(&self.delays.kept, &self.packets)
    }

    // Is a packet not acknowledged? Refused with 19.
    pub fn has_unacked_packets(self) -> Told<bool>
        ensures { answer_told result ≡ read_of self has_unacked_in }
    {
        self.head()
            .has_unacked_packets(&self.delays.kept, &self.packets)
    }

    // How many packets are lost. Refused with 19.
    pub fn lost_count(self) -> Told<u64>
        ensures { answer_told result ≡ read_of self lost_count_in }
    {
        self.head().lost_count(&self.delays.kept, &self.packets)
    }

    // Is a packet lost? Refused with 19.
    pub fn has_lost_packets(self) -> Told<bool>
        ensures { answer_told result ≡ read_of self has_lost_in }
    {
        self.head()
            .has_lost_packets(&self.delays.kept, &self.packets)
    }

    // The lost packet at a position of the list, from 0. Refused with 19, and with 12 at or past
    // the count.
    pub fn lost_at(self, position: u32) -> Told<LostPacket>
        ensures { answer_told result ≡ when_state_sound self (lost_at_of (tracker_of self) position) }
    {
        self.head()
            .lost_at(&self.delays.kept, &self.packets, position)
    }
}

// The lost list, in ascending order of the 16-bit number: packets whose number is past the wrap
// come first.
ghost use Rattle.std.specs.Prelude.{◌≡◌, ◌≤◌, ◌+◌};
ghost use Rattle.std.proofs.Math.Seq.{slice};
ghost use Rattle.outgoing.specs.Answers.{answer_told};
ghost use Rattle.outgoing.specs.Lost.{lost_count_of, nth_lost, lost_place_of, lost_at_of};
ghost use Rattle.outgoing.specs.Read.{lost_count_in, has_lost_in};
ghost use Rattle.sent.specs.Full.{Full};
ghost use Rattle.sent.specs.State.{read_of, when_state_sound, tracker_of};
ghost use Rattle.sent.specs.Whole.{whole_of};

use crate::head::Head;
use crate::packets::Packets;
use crate::place::Place;
use controller::samples::Samples;
use outgoing::answer::{LostPacket, Reason, Told};
use outgoing::lost::{type_of, wrap_place};
use outgoing::told::any_told;
use seq::SeqNum;

// How many packets at the places from `from` up to `to` are lost.
fn lost_between<P: Packets>(packets: &P, from: usize, to: usize) -> u32
    requires within { (from ≤ to) × (to ≤ 512) }
    requires full { Full P.packets P.of_packets packets.now }
    ensures count { result ≡ lost_count_of (slice from to (P.packets packets.now)) }
    ensures few { result ≤ 512 }
{
    let mut count: u32 = 0;
    for i in from..to {
        count += packets.packet_at(Place { at: i }).lost_one();
    }
    count
}

// The place of the lost packet at a position among those from `from` up to `to`.
// (`to` where there is none: `nth_lost` counts so. One by one: the lost ones are marks, no list.)
fn lost_place<P: Packets>(packets: &P, from: usize, to: usize, position: u32) -> usize
    requires within { (from ≤ to) × (to ≤ 512) }
    requires full { Full P.packets P.of_packets packets.now }
    ensures { result ≡ from + nth_lost (slice from to (P.packets packets.now)) position }
{
    let mut left = position;
    for i in from..to {
        let p = packets.packet_at(Place { at: i });
        if p.lost == 0 {
            continue;
        }
        if left == 0 {
            return i;
        }
        left -= 1;
    }
    to
}

// The place of the lost packet at a position, `wrapped` of the lost ones being past the wrap.
fn place_at<P: Packets>(packets: &P, wrap: usize, live: usize, wrapped: u32, position: u32) -> usize
    requires within { (wrap ≤ live) × (live ≤ 512) }
    requires full { Full P.packets P.of_packets packets.now }
    ensures { result ≡ lost_place_of (P.packets packets.now) wrap live wrapped position }
{
    if position < wrapped {
        return lost_place(packets, wrap, live, position);
    }
    lost_place(packets, 0, wrap, position - wrapped)
}

impl Head {
    // How many packets are lost. Refused with 19.
    pub fn lost_count<S: Samples, P: Packets>(self, samples: &S, packets: &P) -> Told<u64>
        ensures { answer_told result ≡ read_of (whole_of self (S.samples samples.now) (P.packets packets.now)) lost_count_in }
    {
        if !self.sound(samples, packets) {
            return Told::Refused(Reason::NotSound);
        }
        Told::Is(lost_between(packets, 0, self.live as usize) as u64)
    }

    // Is a packet lost? Refused with 19.
    pub fn has_lost_packets<S: Samples, P: Packets>(self, samples: &S, packets: &P) -> Told<bool>
        ensures { answer_told result ≡ read_of (whole_of self (S.samples samples.now) (P.packets packets.now)) has_lost_in }
    {
        any_told(self.lost_count(samples, packets))
    }

    // The lost packet at a position of the list, from 0. Refused with 19, and with 12 at or past
    // the count.
    pub fn lost_at<S: Samples, P: Packets>(
        self,
        samples: &S,
        packets: &P,
        position: u32,
    ) -> Told<LostPacket>
        ensures { let s = whole_of self (S.samples samples.now) (P.packets packets.now) in
            answer_told result ≡ when_state_sound s (lost_at_of (tracker_of s) position) }
    {
        if !self.sound(samples, packets) {
            return Told::Refused(Reason::NotSound);
        }
        let live = self.live as usize;
        let gone = self.count - self.live;
        let wrap = wrap_place(self.initial, gone, self.live) as usize;
        let wrapped = lost_between(packets, wrap, live);
        if wrapped + lost_between(packets, 0, wrap) <= position {
            return Told::Refused(Reason::NotSent);
        }
        let place = place_at(packets, wrap, live, wrapped, position);
        let p = packets.packet_at(Place { at: place });
        Told::Is(LostPacket {
            seq_num: SeqNum(self.initial).plus(((gone as usize) + 1 + place) as u16),
            packet_type: type_of(p.kind),
            tag: p.tag,
        })
    }
}

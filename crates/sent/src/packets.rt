// Where the kept packets lie: one trait, so that every loop over them and every call of the tracker
// stands once.
ghost use Rattle.std.specs.Prelude.{◌≡◌, List, get_or, set};
ghost use Rattle.outgoing.specs.declared.kept.Packet.{Packet};
ghost use Rattle.outgoing.specs.Tracker.{no_packet};
ghost use Rattle.sent.specs.Full.{Full};

use crate::place::Place;
use outgoing::kept::Packet;

// Private loops ask that what they are lent is `Full`: a place tells that by a call alone.
// A place where 512 packets lie in an order.
pub trait Packets {
    // The packets, the first at place 0.
    ghost packets: { Self → List Packet };

    // What it is when these packets lie there.
    ghost of_packets: { List Packet → Self };

    // The packet at a place.
    fn packet_at(&self, place: Place) -> Packet
        ensures found { result ≡ get_or (packets self.now) place.at no_packet }
        ensures full { Full packets of_packets self.now };

    // Puts a packet at a place.
    fn put_packet(&mut self, place: Place, packet: Packet)
        ensures put { packets self.new ≡ set (packets self.old) place.at packet }
        ensures full { Full packets of_packets self.new };
}

impl Packets for [Packet; 512] {
    ghost packets = { λ packets. packets };

    ghost of_packets = { λ packets. packets };

    fn packet_at(&self, place: Place) -> Packet {
        self[place.at]
    }

    fn put_packet(&mut self, place: Place, packet: Packet) {
        self[place.at] = packet;
    }
}

// The packets as three arrays of integers.
ghost use Rattle.sent_lent.specs.Lent.{packets_in, columns_of};

use outgoing::kept::Packet;
use sent::packets::Packets;
use sent::place::Place;

// Packet `i` has its time at place i of `times`, its tag and length from place 2i of `sizes` on,
// and its kind and marks from place 4i of `marks` on.
// (Columns and no records: the C header's struct has them so, and docs/STATE.md.)
#[repr(C)]
#[derive(Clone, Copy)]
pub struct Columns {
    pub times: [u64; 512],
    pub sizes: [u32; 1024],
    pub marks: [u8; 2048],
}

impl Packets for Columns {
    ghost packets = { λ c. packets_in c.times c.sizes c.marks };

    ghost of_packets = { columns_of };

    fn packet_at(&self, place: Place) -> Packet {
        let i = place.at;
        Packet {
            sent_at: self.times[i],
            tag: self.sizes[2 * i],
            len: self.sizes[2 * i + 1],
            kind: self.marks[4 * i],
            acked: self.marks[4 * i + 1],
            lost: self.marks[4 * i + 2],
            resent: self.marks[4 * i + 3],
        }
    }

    fn put_packet(&mut self, place: Place, packet: Packet) {
        let i = place.at;
        self.times[i] = packet.sent_at;
        self.sizes[2 * i] = packet.tag;
        self.sizes[2 * i + 1] = packet.len;
        self.marks[4 * i] = packet.kind;
        self.marks[4 * i + 1] = packet.acked;
        self.marks[4 * i + 2] = packet.lost;
        self.marks[4 * i + 3] = packet.resent;
    }
}

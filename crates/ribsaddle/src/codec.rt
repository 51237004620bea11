// The codec: a datagram read, a packet written.
ghost use Rattle.std.specs.Prelude.{◌≡◌};
ghost use Rattle.ribsaddle.specs.Answer.{number_of};
ghost use Rattle.ribsaddle.specs.Codec.{fields_of, parts_of, header_from, reading_of, writing_of, writing_room_of, writing_size_of};

use packet::decode::{Decoded, Packet};
use packet::encode::Encoded;
use packet::header::Header;
use packet::kind::{PacketType, TypeRead};
use seq::SeqNum;

// For C a type, an answer and a part are numbers, and parts stand apart: include/ribsaddle.h.
// A header. `packet_type` is the type's number.
#[repr(C)]
#[derive(Clone, Copy)]
pub struct HeaderFields {
    pub packet_type: u8,
    pub conn_id: u16,
    pub ts_micros: u32,
    pub ts_diff_micros: u32,
    pub window_size: u32,
    pub seq_num: u16,
    pub ack_num: u16,
}

// A packet that was read: its header, and the places and lengths of its SACK (length 0: none) and
// its payload in the datagram.
#[repr(C)]
#[derive(Clone, Copy)]
pub struct PacketFields {
    pub header: HeaderFields,
    pub sack_at: usize,
    pub sack_len: usize,
    pub payload_at: usize,
    pub payload_len: usize,
}

impl From<Header> for HeaderFields {
    ghost from_gives = { λ header fields. fields ≡ fields_of header };

    fn from(header: Header) -> HeaderFields {
        HeaderFields {
            packet_type: header.packet_type.number(),
            conn_id: header.conn_id,
            ts_micros: header.ts_micros,
            ts_diff_micros: header.ts_diff_micros,
            window_size: header.window_size,
            seq_num: header.seq_num.0,
            ack_num: header.ack_num.0,
        }
    }
}

impl From<Packet> for PacketFields {
    ghost from_gives = { λ packet fields. fields ≡ parts_of packet };

    fn from(packet: Packet) -> PacketFields {
        PacketFields {
            header: HeaderFields::from(packet.header),
            sack_at: packet.sack.at,
            sack_len: packet.sack.len,
            payload_at: packet.payload.at,
            payload_len: packet.payload.len,
        }
    }
}

impl HeaderFields {
    // The header of these fields, with the type that their number stands for.
    fn header_of(self, packet_type: PacketType) -> Header
        ensures { result ≡ header_from packet_type self }
    {
        Header {
            packet_type,
            conn_id: self.conn_id,
            ts_micros: self.ts_micros,
            ts_diff_micros: self.ts_diff_micros,
            window_size: self.window_size,
            seq_num: SeqNum(self.seq_num),
            ack_num: SeqNum(self.ack_num),
        }
    }
}

// Reads a datagram into `packet`. Refuses with 1, 2, 3, 4, 5, 6, 7.
#[tactic(auto, unfolding(crate::specs::Codec::reading_of))]
#[unsafe(no_mangle)]
pub extern "C" fn ribsaddle_decode(packet: &mut PacketFields, datagram: &[u8]) -> u32
    ensures { (result ≡ (reading_of packet.old datagram.now).answer) × (packet.new ≡ (reading_of packet.old datagram.now).packet) }
{
    match Packet::decode(datagram) {
        Decoded::Accepted(read) => {
            *packet = PacketFields::from(read);
            0
        }
        Decoded::Undecoded(reason) => reason.number(),
    }
}

// Writes the packet of a header, a SACK (no bytes: none) and a payload to the front of `room`, and
// its size to `size`. Refuses with 2, 5, 6, 8, 7, 9.
#[tactic(auto, unfolding(crate::specs::Codec::writing_of, crate::specs::Codec::writing_room_of))]
#[unsafe(no_mangle)]
pub extern "C" fn ribsaddle_encode(
    header: &HeaderFields,
    sack: &[u8],
    payload: &[u8],
    room: &mut [u8],
    size: &mut u64,
) -> u32
    ensures { (result ≡ number_of (writing_of header.now sack.now payload.now room.old))
        × (room.new ≡ writing_room_of header.now sack.now payload.now room.old)
        × (size.new ≡ writing_size_of header.now sack.now payload.now room.old size.old) }
{
    let TypeRead::Known(packet_type) = PacketType::of_number(header.packet_type) else {
        return 2;
    };
    match Packet::encode(header.header_of(packet_type), sack, payload, room) {
        Encoded::Written(n) => {
            *size = n as u64;
            0
        }
        Encoded::Refused(reason) => reason.number(),
    }
}

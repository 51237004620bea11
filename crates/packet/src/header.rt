// The 20 bytes that every packet begins with.
ghost use Rattle.std.specs.Prelude.{◌≤◌, ◌≡◌, length, OnOk};
ghost use Rattle.common.specs.Answer.{answered};
ghost use Rattle.common.specs.Laws.Put.{put};
ghost use Rattle.packet.specs.Layout.{widths, bytes_of, fields_of_header, header_with, empty_data};
ghost use Rattle.packet.specs.Decode.{header_answer};
ghost use Rattle.packet.specs.Answers.{header_number};

use crate::kind::{PacketType, TypeRead};
use crate::number::{bytes_at, put_all};
use seq::SeqNum;

// What stands in a header: all but the version, which is 1, and the first extension, which goes
// with the chain.
#[derive(Clone, Copy)]
pub struct Header {
    pub packet_type: PacketType,
    pub conn_id: u16,
    pub ts_micros: u32,
    pub ts_diff_micros: u32,
    pub window_size: u32,
    pub seq_num: SeqNum,
    pub ack_num: SeqNum,
}

// Why a datagram has no header: 1, 2, 3.
#[derive(Clone, Copy)]
pub enum HeaderReason {
    TooShort,
    UnknownType,
    UnknownVersion,
}

impl HeaderReason {
    // The number of the refusal. A method and no `From`: docs/PROMISES.md promises `number`.
    pub fn number(self) -> u32
        ensures { result ≡ header_number self }
    {
        match self {
            HeaderReason::TooShort => 1,
            HeaderReason::UnknownType => 2,
            HeaderReason::UnknownVersion => 3,
        }
    }
}

impl Header {
    // Is this Data with an empty payload?
    pub(crate) fn is_empty_data(self, size: usize) -> bool
        ensures { result ≡ empty_data self size }
    {
        self.packet_type == PacketType::Data && size == 0
    }

    // The header of a datagram. Refuses with 1, 2, 3, checked in this order.
    #[tactic(auto, using(crate::proofs::Version::of_other_version))]
    pub(crate) fn read(datagram: &[u8]) -> Result<Header, HeaderReason>
        ensures header { answered header_number result ≡ header_answer datagram.now }
        ensures long { OnOk result (20 ≤ length datagram.now) }
    {
        if datagram.len() < 20 {
            return Err(HeaderReason::TooShort);
        }
        let first = datagram[0];
        let TypeRead::Known(packet_type) = PacketType::of_number(first / 16) else {
            return Err(HeaderReason::UnknownType);
        };
        if first % 16 != 1 {
            return Err(HeaderReason::UnknownVersion);
        }
        Ok(Header::of_type(packet_type, datagram))
    }

    // The fields of a header of this type.
    fn of_type(packet_type: PacketType, datagram: &[u8]) -> Header
        requires { 20 ≤ length datagram.now }
        ensures { result ≡ header_with packet_type datagram.now }
    {
        Header {
            packet_type,
            conn_id: u16::from_be_bytes(bytes_at(datagram, 2)),
            ts_micros: u32::from_be_bytes(bytes_at(datagram, 4)),
            ts_diff_micros: u32::from_be_bytes(bytes_at(datagram, 8)),
            window_size: u32::from_be_bytes(bytes_at(datagram, 12)),
            seq_num: SeqNum(u16::from_be_bytes(bytes_at(datagram, 16))),
            ack_num: SeqNum(u16::from_be_bytes(bytes_at(datagram, 18))),
        }
    }

    // Writes the 20 bytes of a header to the front of the room: first the type in the high four
    // bits with version 1 in the low four, and the first extension.
    pub(crate) fn put(self, room: &mut [u8], extension: u8)
        requires { 20 ≤ length room.old }
        ensures { room.new ≡ put room.old 0 (bytes_of widths (fields_of_header self extension)) }
    {
        put_all(room, 0, &[16 * self.packet_type.number() + 1, extension]);
        put_all(room, 2, &self.conn_id.to_be_bytes());
        put_all(room, 4, &self.ts_micros.to_be_bytes());
        put_all(room, 8, &self.ts_diff_micros.to_be_bytes());
        put_all(room, 12, &self.window_size.to_be_bytes());
        put_all(room, 16, &self.seq_num.0.to_be_bytes());
        put_all(room, 18, &self.ack_num.0.to_be_bytes());
    }
}

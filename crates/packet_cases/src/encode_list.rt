// encode.bin: a packet's parts and the room for it, the answer number, and what is written. The
// room is filled with a pattern first, so that every byte that must stay as it was can be told.
use crate::records::{self, Compared};
use list::{behind, behind_part, fill, four, holds, number, part, two};
use packet::decode::Packet;
use packet::encode::Encoded;
use packet::header::Header;
use packet::kind::{PacketType, TypeRead};
use report::tally::Tally;
use report::text::front;
use seq::SeqNum;

// The type of a number, and Reset for one that no type has.
// (A list may have one. sent_replay has this of its own lists.)
fn type_of(number: u8) -> PacketType {
    match PacketType::of_number(number) {
        TypeRead::Known(packet_type) => packet_type,
        TypeRead::UnknownType => PacketType::Reset,
    }
}

// The record begins with kind, connection, timestamp, difference, window, sequence and ack.
fn header_of(record: &[u8]) -> Header {
    Header {
        packet_type: type_of((number(record, 0, 1) % 256) as u8),
        conn_id: two(record, 1),
        ts_micros: four(record, 3),
        ts_diff_micros: four(record, 7),
        window_size: four(record, 11),
        seq_num: SeqNum(two(record, 15)),
        ack_num: SeqNum(two(record, 17)),
    }
}

// The answer's number and how many bytes were written, as the recorded lists have them.
fn answer_of(encoded: Encoded) -> (u64, u64) {
    match encoded {
        Encoded::Written(size) => (0, size as u64),
        Encoded::Refused(reason) => (reason.number() as u64, 0),
    }
}

// A record: its header, and what stands from the SACK on, from the payload on, and from what is
// seen on: room, answer, source, and how many bytes are written and those.
#[derive(Clone, Copy)]
struct Record<'a> {
    header: Header,
    sack: &'a [u8],
    payload: &'a [u8],
    seen: &'a [u8],
}

impl<'a> Record<'a> {
    // The first record of these bytes.
    fn of(bytes: &'a [u8]) -> Self {
        let sack = behind(bytes, 19);
        let payload = behind_part(sack);
        Self {
            header: header_of(bytes),
            sack,
            payload,
            seen: behind_part(payload),
        }
    }

    // How many bytes it has.
    fn size(self) -> usize {
        let sack_len = two(self.sack, 0) as usize;
        let payload_len = two(self.payload, 0) as usize;
        33 + sack_len + payload_len + four(self.seen, 6) as usize
    }

    // Is the packet, written into this room, answered as recorded, and the room behind it as
    // recorded?
    fn is_same_in(self, room: &mut [u8]) -> bool {
        fill(room);
        let encoded = Packet::encode(self.header, part(self.sack), part(self.payload), room);
        let seen = self.seen;
        let told = front(behind(seen, 10), four(seen, 6) as usize);
        answer_of(encoded) == (number(seen, 4, 1), number(seen, 6, 4)) && holds(room, told)
    }
}

// Compares the first record of these bytes. Room of just the length that it asks for is lent.
pub(crate) fn compared(bytes: &[u8], buffer: &mut [u8]) -> Compared {
    let record = Record::of(bytes);
    let is_same = match buffer.get_mut(..four(record.seen, 0) as usize) {
        Some(room) => record.is_same_in(room),
        None => false,
    };
    Compared {
        size: record.size(),
        answer: number(record.seen, 4, 1),
        is_same,
    }
}

pub(crate) fn replay(list: &[u8]) -> Tally {
    let mut buffer = [0u8; 65808];
    records::replay(list, |bytes| compared(bytes, &mut buffer))
}

// decode.bin: a datagram, its answer number, and after 0 the packet's fields.
ghost use Rattle.std.specs.Prelude.{◌≤◌};

use crate::records::{self, Compared};
use list::{behind, behind_part, four, number, part, two};
use packet::decode::{Decoded, Packet};
use packet::extension::Part;
use packet::header::Header;
use report::tally::Tally;

// Behind answer 0 of the record: type, connection, timestamp, difference, window, sequence, ack.
fn is_header(header: Header, seen: &[u8]) -> bool {
    let kind = header.packet_type.number() as u64;
    let times = (header.ts_micros, header.ts_diff_micros);
    let numbers = (header.seq_num.0, header.ack_num.0);
    (kind, header.conn_id) == (number(seen, 1, 1), two(seen, 2))
        && times == (four(seen, 4), four(seen, 8))
        && header.window_size == four(seen, 12)
        && numbers == (two(seen, 16), two(seen, 18))
}

// The place and the length of a part.
fn is_part(part: Part, seen: &[u8]) -> bool {
    (part.at, part.len) == (two(seen, 0) as usize, two(seen, 2) as usize)
}

// Behind the header: the SACK's place and length, the payload's place and length.
fn is_packet(packet: Packet, seen: &[u8]) -> bool {
    is_header(packet.header, seen)
        && is_part(packet.sack, behind(seen, 20))
        && is_part(packet.payload, behind(seen, 24))
}

// Is the answer to the datagram the recorded one, in every field?
fn is_seen(datagram: &[u8], seen: &[u8]) -> bool {
    let answer = number(seen, 0, 1);
    match Packet::decode(datagram) {
        Decoded::Accepted(packet) => answer == 0 && is_packet(packet, seen),
        Decoded::Undecoded(reason) => answer == reason.number() as u64,
    }
}

// How many bytes of the record stand behind its datagram.
fn seen_size(answer: u64) -> usize
    ensures { result ≤ 28 }
{
    if answer == 0 { 28 } else { 1 }
}

fn compared(record: &[u8]) -> Compared {
    let seen = behind_part(record);
    let answer = number(seen, 0, 1);
    Compared {
        size: 2 + two(record, 0) as usize + seen_size(answer),
        answer,
        is_same: is_seen(part(record), seen),
    }
}

pub(crate) fn replay(list: &[u8]) -> Tally {
    records::replay(list, compared)
}

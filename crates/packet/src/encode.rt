// Writing a packet into room that the caller lends. Nothing is written on a refusal.
ghost use Rattle.std.specs.Prelude.{◌+◌, ◌^◌, ◌≤◌, ◌≡◌, [], length};
ghost use Rattle.common.specs.Answer.{answered, done, ◌then◌};
ghost use Rattle.common.specs.Laws.Put.{put};
ghost use Rattle.packet.specs.Encode.{encode_of, room_of, packet_bytes, size_of, data_answer};
ghost use Rattle.packet.specs.Sack.{mask_answer};
ghost use Rattle.packet.specs.Answers.{unwritten_number, encoded};
ghost use Rattle.packet.specs.declared.encode.Unwritten.TheVariants.{BadSack};

use crate::decode::Packet;
use crate::header::Header;
use crate::number::put_all;
use crate::sack::{SackReason, check};

// Why a packet is not written: its SACK's length 5, 6, 8; Data with no payload 7; room 9.
#[derive(Clone, Copy)]
pub enum Unwritten {
    BadSack(SackReason),
    EmptyData,
    NoRoom,
}

// An enum of the port's own in place of Result: document 01, "What must change shape".
#[derive(Clone, Copy)]
pub enum Encoded {
    Written(usize),
    Refused(Unwritten),
}

impl Unwritten {
    // The number of the refusal. A method and no `From`: docs/PROMISES.md promises `number`.
    pub fn number(self) -> u32
        ensures { result ≡ unwritten_number self }
    {
        match self {
            Unwritten::BadSack(reason) => reason.number(),
            Unwritten::EmptyData => 7,
            Unwritten::NoRoom => 9,
        }
    }
}

impl From<SackReason> for Unwritten {
    ghost from_gives = { λ reason r. r ≡ BadSack reason };

    fn from(reason: SackReason) -> Self {
        Self::BadSack(reason)
    }
}

impl Packet {
    // Writes the packet of a header, a SACK (no bytes: none) and a payload to the front of the
    // room, and answers its size. Refuses with 5, 6, 8, 7, 9, checked in this order.
    // (Its parts stand apart, as C hands them in: `ribsaddle_encode`.)
    pub fn encode(header: Header, sack: &[u8], payload: &[u8], room: &mut [u8]) -> Encoded
        ensures { (encoded result ≡ encode_of header sack.now payload.now (length room.old))
            × (room.new ≡ room_of header sack.now payload.now room.old) }
    {
        match write_packet(header, sack, payload, room) {
            Ok(size) => Encoded::Written(size),
            Err(reason) => Encoded::Refused(reason),
        }
    }
}

// Nothing is written before the last check.
fn write_packet(
    header: Header,
    sack: &[u8],
    payload: &[u8],
    room: &mut [u8],
) -> Result<usize, Unwritten>
    ensures { (answered unwritten_number result
        ≡ encode_of header sack.now payload.now (length room.old))
        × (room.new ≡ room_of header sack.now payload.now room.old) }
{
    check_parts(header, sack.len(), payload.len())?;
    let size = size_of(sack.len(), payload.len());
    if room.len() < size {
        return Err(Unwritten::NoRoom);
    }
    if sack.is_empty() {
        put_plain(room, header, payload);
    } else {
        put_sacked(room, header, sack, payload);
    }
    Ok(size)
}

// The SACK, and behind it the payload: the first refusal counts.
fn check_parts(header: Header, sack_len: usize, payload_len: usize) -> Result<(), Unwritten>
    ensures { (answered unwritten_number result then done 0)
        ≡ (mask_answer sack_len then data_answer header payload_len) }
{
    sack_part(sack_len).and(data_part(header, payload_len))
}

// The SACK's length, 5, 6, 8.
fn sack_part(len: usize) -> Result<(), Unwritten>
    ensures { (answered unwritten_number result then done len) ≡ mask_answer len }
{
    check(len)?;
    Ok(())
}

// The payload, 7.
fn data_part(header: Header, len: usize) -> Result<(), Unwritten>
    ensures { (answered unwritten_number result then done 0) ≡ data_answer header len }
{
    if header.is_empty_data(len) {
        return Err(Unwritten::EmptyData);
    }
    Ok(())
}

// The size of a packet with a SACK of so many bytes.
fn size_of(sack_len: usize, payload_len: usize) -> usize
    requires { (sack_len ≤ 252) × (payload_len + 1 ≤ 2 ^ 63) }
    ensures { result ≡ size_of sack_len payload_len }
{
    if sack_len == 0 {
        20 + payload_len
    } else {
        22 + sack_len + payload_len
    }
}

// Writes a packet without a SACK: the header, and behind it the payload.
// (Apart from `put_sacked`: without a SACK its next byte, length and bytes are not there.)
fn put_plain(room: &mut [u8], header: Header, payload: &[u8])
    requires { 20 + length payload.now ≤ length room.old }
    ensures { room.new ≡ put room.old 0 (packet_bytes header [] payload.now) }
{
    header.put(room, 0);
    put_all(room, 20, payload);
}

// Writes a packet with a SACK: its next byte is 0, then comes its length.
fn put_sacked(room: &mut [u8], header: Header, sack: &[u8], payload: &[u8])
    requires payload_in_bounds { 22 + length sack.now + length payload.now ≤ length room.old }
    requires sack_in_bounds { (1 ≤ length sack.now) × (length sack.now ≤ 252) }
    ensures { room.new ≡ put room.old 0 (packet_bytes header sack.now payload.now) }
{
    header.put(room, 1);
    put_all(room, 20, &[0, sack.len() as u8]);
    put_all(room, 22, sack);
    put_all(room, 22 + sack.len(), payload);
}

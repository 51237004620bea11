// Reading a datagram. Any bytes get an answer.
ghost use Rattle.std.specs.Prelude.{◌≡◌};
ghost use Rattle.common.specs.Answer.{answered};
ghost use Rattle.packet.specs.Decode.{decode_of, sack_answer, payload_answer};
ghost use Rattle.packet.specs.Answers.{reason_number, sack_number, sacked, decoded};
ghost use Rattle.packet.specs.declared.decode.Reason.TheVariants.{BadHeader, Extension, BadSack};

use crate::extension::{Cursor, Part, PastEnd, read_chain};
use crate::header::{Header, HeaderReason};
use crate::sack::{SackReason, whole_words};

// A datagram that was read: its header, the first SACK (no bytes where there is none), and the
// payload, the two as parts of the datagram.
// (Places and lengths, and no bytes for no SACK: document 01, "Packets on the wire".)
#[derive(Clone, Copy)]
pub struct Packet {
    pub header: Header,
    pub sack: Part,
    pub payload: Part,
}

// Why a datagram is refused: header 1, 2, 3; extension 4; SACK 5, 6; payload 7.
#[derive(Clone, Copy)]
pub enum Reason {
    BadHeader(HeaderReason),
    Extension,
    BadSack(SackReason),
    EmptyData,
}

// An enum of the port's own in place of Result: document 01, "What must change shape".
#[derive(Clone, Copy)]
pub enum Decoded {
    Accepted(Packet),
    Undecoded(Reason),
}

impl Reason {
    // The number of the refusal. A method and no `From`: docs/PROMISES.md promises `number`.
    pub fn number(self) -> u32
        ensures { result ≡ reason_number self }
    {
        match self {
            Reason::BadHeader(reason) => reason.number(),
            Reason::Extension => 4,
            Reason::BadSack(reason) => reason.number(),
            Reason::EmptyData => 7,
        }
    }
}

impl From<HeaderReason> for Reason {
    ghost from_gives = { λ reason r. r ≡ BadHeader reason };

    fn from(reason: HeaderReason) -> Self {
        Self::BadHeader(reason)
    }
}

impl From<PastEnd> for Reason {
    ghost from_gives = { λ _ r. r ≡ Extension };

    fn from(_past_end: PastEnd) -> Self {
        Self::Extension
    }
}

impl From<SackReason> for Reason {
    ghost from_gives = { λ reason r. r ≡ BadSack reason };

    fn from(reason: SackReason) -> Self {
        Self::BadSack(reason)
    }
}

impl Packet {
    // The size of a header in bytes.
    pub const HEADER_LEN: usize = 20;

    // Reads a datagram. Refuses with 1, 2, 3, 4, 5, 6, 7, checked in this order.
    pub fn decode(datagram: &[u8]) -> Decoded
        ensures { decoded result ≡ decode_of datagram.now }
    {
        match read_packet(datagram) {
            Ok(packet) => Decoded::Accepted(packet),
            Err(reason) => Decoded::Undecoded(reason),
        }
    }
}

// Each part in its order: the first refusal is the answer.
fn read_packet(datagram: &[u8]) -> Result<Packet, Reason>
    ensures { answered reason_number result ≡ decode_of datagram.now }
{
    let header = Header::read(datagram)?;
    let first = Cursor {
        number: datagram[1],
        at: 20,
    };
    let (found, at) = read_chain(datagram, first)?;
    let sack = sack_part(found)?;
    let payload = payload_part(header, datagram.len(), at)?;
    Ok(Packet {
        header,
        sack,
        payload,
    })
}

// The SACK, 5, 6; a part of no bytes where there is none.
fn sack_part(sack: Option<Part>) -> Result<Part, SackReason>
    ensures { answered sack_number result ≡ sack_answer (sacked sack) }
{
    match sack {
        None => Ok(Part { at: 0, len: 0 }),
        Some(part) => {
            whole_words(part.len)?;
            Ok(part)
        }
    }
}

// The payload, 7: all that is left of a datagram of `size` bytes from `at` on.
fn payload_part(header: Header, size: usize, at: usize) -> Result<Part, Reason>
    ensures { answered reason_number result ≡ payload_answer header size at }
{
    let len = size.saturating_sub(at);
    if header.is_empty_data(len) {
        return Err(Reason::EmptyData);
    }
    Ok(Part { at, len })
}

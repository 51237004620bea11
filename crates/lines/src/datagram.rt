// The line that shows a datagram. Accepted: INDEX 0 TYPE CONNECTION TIMESTAMP DIFFERENCE WINDOW SEQ
// ACK SACK AT LENGTH, all decimal but the SACK, which is in lower-case hexadecimal, or - where
// there is none; AT and LENGTH are the payload's place and length. Refused: INDEX NUMBER.
use packet::decode::{Decoded, Packet};
use packet::header::Header;
use std::fmt;
use std::fmt::{Display, Formatter};

// No line is longer, with the line's end behind it: eleven numbers of at most 20 digits, 252 bytes
// in hexadecimal, and spaces.
pub const LONGEST: usize = 1024;

// A datagram, and its index among those that are shown.
#[derive(Clone, Copy)]
pub struct Line<'a> {
    pub index: u64,
    pub datagram: &'a [u8],
}

impl Display for Line<'_> {
    fn fmt<W: fmt::Write>(&self, f: &mut Formatter<W>) -> fmt::Result {
        let index = self.index;
        match Packet::decode(self.datagram) {
            Decoded::Accepted(packet) => {
                let header = Fields(packet.header);
                let sack = Sack(packet.sack.bytes(self.datagram));
                let at = packet.payload.at;
                let len = packet.payload.len;
                write!(f, "{index} 0 {header} {sack} {at} {len}")
            }
            Decoded::Undecoded(reason) => {
                let number = reason.number();
                write!(f, "{index} {number}")
            }
        }
    }
}

// The header's fields from the type to the ack number.
#[derive(Clone, Copy)]
struct Fields(Header);

impl Display for Fields {
    fn fmt<W: fmt::Write>(&self, f: &mut Formatter<W>) -> fmt::Result {
        let header = self.0;
        let packet_type = header.packet_type.number();
        let conn_id = header.conn_id;
        let ts_micros = header.ts_micros;
        let ts_diff_micros = header.ts_diff_micros;
        let window_size = header.window_size;
        let seq_num = header.seq_num.0;
        let ack_num = header.ack_num.0;
        write!(f, "{packet_type} {conn_id} {ts_micros} {ts_diff_micros}")?;
        write!(f, " {window_size} {seq_num} {ack_num}")
    }
}

// A SACK's bytes.
#[derive(Clone, Copy)]
struct Sack<'a>(&'a [u8]);

impl Display for Sack<'_> {
    fn fmt<W: fmt::Write>(&self, f: &mut Formatter<W>) -> fmt::Result {
        if self.0.is_empty() {
            return write!(f, "-");
        }
        for byte in self.0 {
            write!(f, "{byte:02x}")?;
        }
        Ok(())
    }
}

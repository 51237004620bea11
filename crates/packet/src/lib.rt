// The uTP packet (BEP 29): types, header, extension chain, selective ACK, reader and writer.
// Nothing is copied out of a datagram and nothing is allocated: what a datagram holds is shown as a
// place and a length in it.

#![tactic(auto)]

pub mod decode;
pub mod encode;
pub mod extension;
pub mod header;
pub mod kind;
mod number;
pub mod sack;

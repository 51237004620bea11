// Of a lost packet: its type, and where the numbers past the wrap begin.
ghost use Rattle.std.specs.Prelude.{◌≡◌};
ghost use Rattle.packet.specs.Kind.{type_of};
ghost use Rattle.outgoing.specs.Lost.{wrap_place};

use packet::kind::{PacketType, TypeRead};

// The type of a number up to 4. (A kept packet has a byte for it: see `Packet`.)
pub fn type_of(kind: u8) -> PacketType
    ensures { result ≡ type_of kind }
{
    match PacketType::of_number(kind) {
        TypeRead::Known(packet_type) => packet_type,
        TypeRead::UnknownType => PacketType::Syn,
    }
}

// The first place whose number is past the wrap, or `live` where none is.
// (No Option: `wrap_place` of specs/Lost gives `live`, where the second range then ends.)
pub fn wrap_place(initial: u16, gone: u32, live: u32) -> u32
    ensures { result ≡ wrap_place initial gone live }
{
    let first = u64::from(initial) + u64::from(gone) + 1;
    live.min(65536_u64.saturating_sub(first) as u32)
}

// The five types of packets, and their numbers.
ghost use Rattle.std.specs.Prelude.{◌≡◌};
ghost use Rattle.packet.specs.Kind.{type_number, type_answer};
ghost use Rattle.packet.specs.Answers.{type_read};

#[derive(Clone, Copy, PartialEq, Eq)]
pub enum PacketType {
    Data,
    Fin,
    State,
    Reset,
    Syn,
}

// An enum of the port's own in place of Option: document 01, "What must change shape".
#[derive(Clone, Copy)]
pub enum TypeRead {
    Known(PacketType),
    UnknownType,
}

impl PacketType {
    // The type's number on the wire. A method and no `From`: docs/PROMISES.md promises `number`.
    pub fn number(self) -> u8
        ensures { result ≡ type_number self }
    {
        match self {
            PacketType::Data => 0,
            PacketType::Fin => 1,
            PacketType::State => 2,
            PacketType::Reset => 3,
            PacketType::Syn => 4,
        }
    }

    // The type of a number, which is unknown (2) above 4.
    // (No TryFrom: that answers a Result, and document 01 wants the enum above.)
    pub fn of_number(n: u8) -> TypeRead
        ensures { type_read result ≡ type_answer n }
    {
        match n {
            0 => TypeRead::Known(PacketType::Data),
            1 => TypeRead::Known(PacketType::Fin),
            2 => TypeRead::Known(PacketType::State),
            3 => TypeRead::Known(PacketType::Reset),
            4 => TypeRead::Known(PacketType::Syn),
            _ => TypeRead::UnknownType,
        }
    }
}

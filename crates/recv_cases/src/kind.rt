// The kinds of events.

// In the order of their numbers, from 1 on.
#[derive(Clone, Copy)]
pub(crate) enum Kind {
    Write,
    Read,
    Ack,
    Ask,
    Run,
}

// A number that no kind has.
#[derive(Clone, Copy)]
pub(crate) struct UnknownKind;

impl TryFrom<u64> for Kind {
    type Error = UnknownKind;

    fn try_from(number: u64) -> Result<Self, UnknownKind> {
        match number {
            1 => Ok(Kind::Write),
            2 => Ok(Kind::Read),
            3 => Ok(Kind::Ack),
            4 => Ok(Kind::Ask),
            5 => Ok(Kind::Run),
            _ => Err(UnknownKind),
        }
    }
}

// One event of a recorded session.
ghost use Rattle.std.specs.Prelude.{◌+◌, ◌≤◌, ◌≡◌, length, drop};
ghost use Rattle.session.specs.Format.{event_of, is_known, sack_size, kind_of};

use crate::number::bytes_at;

// What an event is.
#[derive(Clone, Copy)]
pub(crate) enum Kind {
    Transmit,
    Ack,
    Timeout,
}

impl Kind {
    // The kind of a number, if it is one's.
    pub(crate) fn of_number(number: u8) -> Option<Kind>
        ensures { result ≡ kind_of number }
    {
        match number {
            1 => Some(Kind::Transmit),
            2 => Some(Kind::Ack),
            3 => Some(Kind::Timeout),
            _ => None,
        }
    }
}

// An event as the file has it, of any kind's number and any type's. `size` is the length of a
// transmit, or the SACK byte count of an ack.
#[derive(Clone, Copy)]
pub struct Event {
    pub kind: u8,
    pub packet_type: u8,
    pub number: u16,
    pub size: u32,
    pub clock: u64,
    pub delay: u64,
}

impl Event {
    // The bytes of an event.
    pub(crate) const SIZE: usize = 24;

    // Is its kind known, and in a transmit its type?
    pub(crate) fn is_known(self) -> bool
        ensures { result ≡ is_known self }
    {
        match Kind::of_number(self.kind) {
            Some(Kind::Transmit) => self.packet_type <= 4,
            Some(Kind::Ack) | Some(Kind::Timeout) => true,
            None => false,
        }
    }

    // How many SACK bytes it uses up: each ack its own, refused or not.
    pub(crate) fn sack_size(self) -> u32
        ensures { result ≡ sack_size self }
    {
        match Kind::of_number(self.kind) {
            Some(Kind::Ack) => self.size,
            _ => 0,
        }
    }
}

// The event whose bytes start at a place.
pub(crate) fn read_event(file: &[u8], at: usize) -> Event
    requires { at + 24 ≤ length file.now }
    ensures { result ≡ event_of (drop at file.now) }
{
    Event {
        kind: file[at],
        packet_type: file[at + 1],
        number: u16::from_be_bytes(bytes_at(file, at + 2)),
        size: u32::from_be_bytes(bytes_at(file, at + 4)),
        clock: u64::from_be_bytes(bytes_at(file, at + 8)),
        delay: u64::from_be_bytes(bytes_at(file, at + 16)),
    }
}

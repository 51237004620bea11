// A packet that was sent, as it is kept: its marks, and what they say of it.
ghost use Rattle.std.specs.Prelude.{◌≡◌, cond};
ghost use Rattle.outgoing.specs.Ack.{with_acked};
ghost use Rattle.outgoing.specs.Loss.{is_unacked, is_lost_of, acked_one, is_newly_lost_of, with_lost};
ghost use Rattle.outgoing.specs.Lost.{lost_one};
ghost use Rattle.outgoing.specs.Sound.{packet_sound_of, flying_of};
ghost use Rattle.outgoing.specs.Transmit.{with_resent};

// A packet that was sent. `kind` is the type's number; `acked`, `lost` and `resent` are 0 or 1.
// They are bytes, not an enum and bools, as a state may be forged: docs/STATE.md, any bits are a
// state.
#[repr(C)]
#[derive(Clone, Copy)]
pub struct Packet {
    pub sent_at: u64,
    pub tag: u32,
    pub len: u32,
    pub kind: u8,
    pub acked: u8,
    pub lost: u8,
    pub resent: u8,
}

impl Packet {
    // How many packets may be kept, and how many may be sent.
    pub const PLACES: u32 = 512;

    pub const MOST_SENT: u32 = 60000;

    // Is it not acknowledged?
    pub fn unacked(self) -> bool
        ensures { result ≡ is_unacked self }
    {
        self.acked == 0
    }

    // What it adds to the number of acknowledged packets.
    pub fn acked_one(self) -> u32
        ensures { result ≡ acked_one self }
    {
        u32::from(self.acked != 0)
    }

    // What it adds to the bytes in flight.
    pub fn flying(self) -> u32
        ensures { result ≡ flying_of self }
    {
        if self.unacked() { self.len } else { 0 }
    }

    // Is it lost, `later` of those behind it being acknowledged?
    fn is_lost(self, later: u32) -> bool
        ensures { result ≡ is_lost_of self later }
    {
        self.unacked() && 3 <= later
    }

    // The mark that goes with this.
    fn lost_mark(self, later: u32) -> u8
        ensures { result ≡ cond (is_lost_of self later) 1 0 }
    {
        u8::from(self.is_lost(later))
    }

    // Does it pass the soundness test, `later` of those behind it being acknowledged?
    pub fn sound(self, later: u32, last: u64) -> bool
        ensures { result ≡ packet_sound_of last self later }
    {
        let mark = self.lost_mark(later);
        // `&`, not `&&`: no branch in the walk over the kept packets, which `&&` makes slower.
        (self.kind <= 4)
            & (self.acked <= 1)
            & (self.resent <= 1)
            & (self.sent_at <= last)
            & (self.lost == mark)
    }

    // Sent again.
    pub fn sent_again(self) -> Packet
        ensures { result ≡ with_resent self }
    {
        Packet { resent: 1, ..self }
    }

    // Acknowledged, and so no longer lost.
    pub fn acked_now(self) -> Packet
        ensures { result ≡ with_acked self }
    {
        Packet {
            acked: 1,
            lost: 0,
            ..self
        }
    }

    // Is it lost and was not before, `later` of those behind it being acknowledged?
    pub fn is_newly_lost(self, later: u32) -> bool
        ensures { result ≡ is_newly_lost_of self later }
    {
        self.is_lost(later) && self.lost == 0
    }

    pub fn lost_now(self) -> Packet
        ensures { result ≡ with_lost self 1 }
    {
        Packet { lost: 1, ..self }
    }

    // What it adds to the count of lost packets.
    pub fn lost_one(self) -> u32
        ensures { result ≡ lost_one self }
    {
        u32::from(self.lost != 0)
    }
}

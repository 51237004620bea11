// What a session is set up with. Every setting is given; there are no defaults.
ghost use Rattle.std.specs.Prelude.{◌≡◌};
ghost use Rattle.congestion.specs.Settings.{in_range_of, gain_in_range_of};

// Times are whole microseconds, sizes bytes. Each field is wide, so that a value out of range can
// be given and is refused here.
#[repr(C)]
#[derive(Clone, Copy)]
pub struct Settings {
    pub target_delay: u64,
    pub first_timeout: u64,
    pub minimum_timeout: u64,
    pub largest_packet: u64,
    pub increase: u64,
    pub gain: f64,
    pub delay_window: u64,
}

// Is it a gain that a session may have, from 2^-10 to 1? A NaN is not.
pub fn gain_in_range(gain: f64) -> bool
    ensures { result ≡ gain_in_range_of gain }
{
    (0.0009765625 <= gain) & (gain <= 1.0)
}

impl Settings {
    // The latest time, and the longest timeout and delay window that may be set: 2^50.
    pub const LATEST: u64 = 0x4_0000_0000_0000;
    // The shortest and the longest target delay.
    pub const SHORTEST_TARGET: u32 = 1000;

    pub const LONGEST_TARGET: u32 = 0xffff_ffff;
    // The largest packet, and the largest window increase: 2^20.
    pub const LARGEST_PACKET: u32 = 65535;

    pub const LARGEST_INCREASE: u32 = 0x10_0000;

    // Is every setting in its range? (If not, a session's start is refused with 10.)
    pub fn in_range(self) -> bool
        ensures { result ≡ in_range_of self }
    {
        let times = (1 <= self.first_timeout)
            & (self.first_timeout <= Settings::LATEST)
            & (1 <= self.minimum_timeout)
            & (self.minimum_timeout <= Settings::LATEST)
            & (1 <= self.delay_window)
            & (self.delay_window <= Settings::LATEST);
        let sizes = (1 <= self.largest_packet)
            & (self.largest_packet <= (Settings::LARGEST_PACKET as u64))
            & (1 <= self.increase)
            & (self.increase <= (Settings::LARGEST_INCREASE as u64));
        ((Settings::SHORTEST_TARGET as u64) <= self.target_delay)
            & (self.target_delay <= (Settings::LONGEST_TARGET as u64))
            & times
            & sizes
            & gain_in_range(self.gain)
    }
}

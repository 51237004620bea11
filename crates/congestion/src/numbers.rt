// The controller's numbers: the settings that are used later, and what an acknowledgement, a loss
// and a timeout move. A forged value is handed back as it came.
ghost use Rattle.std.specs.Prelude.{◌≡◌, ◌-◌, ◌/◌, ◌^◌, ◌≤◌, true};
ghost use Rattle.congestion.specs.Numbers.{minimum_of, free_of, sound_of, new_of, accepted_of, transmitted_of, adjusted_of, landed_of, timed_of, acked_of, lost_of, timed_out_of, when_sound};

use crate::settings::{Settings, gain_in_range};
use crate::{trip, window};

// Times are whole microseconds, sizes bytes.
#[repr(C)]
#[derive(Clone, Copy, Default)]
pub struct Numbers {
    pub target: u32,
    pub largest_packet: u32,
    pub increase: u32,
    pub maximum: u32,
    pub in_flight: u32,
    pub minimum_timeout: u64,
    pub delay_window: u64,
    pub gain: f64,
    pub trip: u64,
    pub variance: u64,
    pub timeout: u64,
    pub last: u64,
}

impl Numbers {
    // The largest maximum window, and where delays are held: 2^32 - 1.
    pub const LARGEST_MAXIMUM: u32 = 0xffff_ffff;
    // Where a doubled timeout is held: 2^53.
    pub const LONGEST_TIMEOUT: u64 = 0x20_0000_0000_0000;

    // The numbers that a session starts with. Settings out of range give all zeros, which are not
    // sound. (No Option: `new_of` gives them, and a function that could not fail still can't.)
    pub fn new(settings: Settings) -> Numbers
        ensures { result ≡ new_of settings }
    {
        if !settings.in_range() {
            return Numbers::default();
        }
        Numbers {
            target: settings.target_delay as u32,
            largest_packet: settings.largest_packet as u32,
            increase: settings.increase as u32,
            maximum: (2 * settings.largest_packet) as u32,
            minimum_timeout: settings.minimum_timeout,
            delay_window: settings.delay_window,
            gain: settings.gain,
            timeout: settings.first_timeout,
            ..Numbers::default()
        }
    }

    // Does it pass the soundness test?
    #[tactic(auto, unfolding(crate::specs::Numbers::sound_of))]
    pub fn sound(self) -> bool
        ensures { result ≡ sound_of self }
    {
        let rules = (Settings::SHORTEST_TARGET <= self.target)
            & ((1 <= self.minimum_timeout) & (self.minimum_timeout <= Settings::LATEST))
            & ((1 <= self.delay_window) & (self.delay_window <= Settings::LATEST))
            & ((1 <= self.largest_packet) & (self.largest_packet <= Settings::LARGEST_PACKET))
            & ((1 <= self.increase) & (self.increase <= Settings::LARGEST_INCREASE))
            & gain_in_range(self.gain);
        let running = (2 * (self.largest_packet as u64) <= (self.maximum as u64))
            & (self.trip <= Settings::LATEST)
            & (self.variance <= Settings::LATEST)
            & ((1 <= self.timeout) & (self.timeout <= Numbers::LONGEST_TIMEOUT))
            & (self.last <= Settings::LATEST);
        rules & running
    }

    // The least that the maximum may be: twice the largest packet.
    pub fn minimum(self) -> u64
        ensures { result ≡ minimum_of self }
    {
        2 * (self.largest_packet as u64)
    }

    // How many bytes may be sent now: maximum less in flight, or 0.
    pub fn free_window(self) -> u32
        ensures { result ≡ free_of self }
    {
        self.maximum.saturating_sub(self.in_flight)
    }

    // With `clock` as the last accepted now.
    pub fn accepted(self, clock: u64) -> Numbers
        ensures { result ≡ accepted_of self clock }
    {
        Numbers {
            last: clock,
            ..self
        }
    }

    // A first transmit of `len` bytes: in flight grows. One that the free window does not hold
    // changes nothing.
    pub fn transmitted(self, len: u32) -> Numbers
        ensures { result ≡ transmitted_of self len }
    {
        if self.free_window() < len {
            return self;
        }
        Numbers {
            in_flight: self.in_flight + len,
            ..self
        }
    }

    // The maximum moved by the window rule with in flight still holding the packet, then in flight
    // without it.
    fn windowed(self, base: u64, delay: u64, len: u32) -> Numbers
        requires { sound_of self ≡ true }
        ensures { result ≡ landed_of (adjusted_of self base delay len) len }
    {
        let left = self.in_flight.saturating_sub(len);
        let step = window::adjustment(self, base, delay, len);
        Numbers {
            maximum: window::next_maximum(self, step),
            in_flight: left,
            ..self
        }
    }

    // Round trip, variance and timeout moved by one packet's round trip, both by the old one.
    fn timed(self, trip: u64) -> Numbers
        requires { (sound_of self ≡ true) × (trip ≤ 2 ^ 50) }
        ensures { result ≡ timed_of self trip }
    {
        let moved = trip::next_trip(self.trip, trip);
        let variance = trip::next_variance(self.trip, self.variance, trip);
        Numbers {
            trip: moved,
            variance,
            timeout: (moved + 4 * variance).max(self.minimum_timeout),
            ..self
        }
    }

    // A newly acknowledged packet of `len` bytes: window, in flight, and if it was sent once its
    // round trip of `trip`. Numbers that are not sound, or a round trip above 2^50, change nothing.
    // (No Option of a trip: `acked_of` refuses one above 2^50 of a packet that was sent twice too.)
    pub fn acked(self, base: u64, delay: u64, len: u32, once: bool, trip: u64) -> Numbers
        ensures { result ≡ acked_of self base delay len once trip }
    {
        if !self.sound() {
            return self;
        }
        if Settings::LATEST < trip {
            return self;
        }
        let windowed = self.windowed(base, delay, len);
        if once {
            return windowed.timed(trip);
        }
        windowed
    }

    // A new loss: the maximum is halved, rounding down, not below the minimum.
    // (The test that begins `acked`, `lost` and `timed_out` is three lines; a closure is no fewer.)
    pub fn lost(self) -> Numbers
        ensures { result ≡ when_sound self (lost_of self) }
    {
        if !self.sound() {
            return self;
        }
        Numbers {
            maximum: (self.maximum / 2).max(2 * self.largest_packet),
            ..self
        }
    }

    // A timeout event: the maximum falls to the minimum, and the timeout is doubled, held at 2^53.
    pub fn timed_out(self) -> Numbers
        ensures { result ≡ when_sound self (timed_out_of self) }
    {
        if !self.sound() {
            return self;
        }
        Numbers {
            maximum: 2 * self.largest_packet,
            timeout: (2 * self.timeout).min(Numbers::LONGEST_TIMEOUT),
            ..self
        }
    }
}

// The congestion controller: one value, handed in and handed back. A forged one is refused with 19
// and comes back as it was. The packets themselves are kept by the tracker.
ghost use Rattle.std.specs.Prelude.{◌≡◌, true, ◌≤◌, ◌^◌};
ghost use Rattle.congestion.specs.Numbers.{free_of, sound_of};
ghost use Rattle.controller.specs.Answers.{reason_number, outcome};
ghost use Rattle.controller.specs.Controller.{done_of, refused_of, controller_sound_of, controller_of, in_time_of, send_of, on_transmit_of, credit_of, on_ack_of, on_loss_of, on_timeout_of};

use crate::answer::{Answer, Reason};
use crate::delays::Delays;
use congestion::numbers::Numbers;
use congestion::settings::Settings;

#[repr(C)]
#[derive(Clone, Copy)]
pub struct Controller {
    pub numbers: Numbers,
    pub delays: Delays,
}

// The answer beside the controller: document 01, the functions "hand the state back".
#[derive(Clone, Copy)]
pub struct Outcome {
    pub answer: Answer,
    pub controller: Controller,
}

#[derive(Clone, Copy)]
pub enum Transmit {
    // A first transmit of so many bytes.
    Initial(u32),
    Retransmission,
}

// What the controller asks of a newly acknowledged packet: its first length, whether it was sent
// once, and when it was first sent.
// (`at` is no Option where it was sent twice: 11 is tested of such a packet, too.)
#[derive(Clone, Copy)]
pub struct Packet {
    pub length: u32,
    pub once: bool,
    pub at: u64,
}

fn done(numbers: Numbers, delays: Delays) -> Outcome
    ensures { outcome result ≡ done_of numbers delays }
{
    Outcome {
        answer: Answer::Done,
        controller: Controller { numbers, delays },
    }
}

impl Controller {
    // The latest time and the longest delay: 2^50.
    pub const LATEST: u64 = Settings::LATEST;
    // Where a doubled timeout is held: 2^53.
    pub const LONGEST_TIMEOUT: u64 = Numbers::LONGEST_TIMEOUT;
    // How many delay samples are kept.
    pub const MOST_SAMPLES: u32 = Delays::MOST;
    // The largest maximum window: 2^32 - 1.
    pub const LARGEST_MAXIMUM: u32 = Numbers::LARGEST_MAXIMUM;

    // A controller at its start. Refused: 10, with a controller that is not sound.
    // (Like the tracker's `Head::new`, of another type: a trait of both would be longer.)
    pub fn new(settings: Settings) -> Outcome
        ensures { outcome result ≡ controller_of settings }
    {
        let numbers = Numbers::new(settings);
        let delays = Delays::none();
        let controller = Controller { numbers, delays };
        if settings.in_range() {
            return Outcome {
                answer: Answer::Done,
                controller,
            };
        }
        Outcome {
            answer: Answer::Refused(Reason::BadSetting),
            controller,
        }
    }

    // Does it pass the soundness test?
    pub fn sound(self) -> bool
        ensures { result ≡ controller_sound_of self }
    {
        let numbers = self.numbers;
        let delays = self.delays;
        numbers.sound() & delays.sound(numbers.last)
    }

    fn refused(self, reason: Reason) -> Outcome
        ensures { outcome result ≡ refused_of self (reason_number reason) }
    {
        Outcome {
            answer: Answer::Refused(reason),
            controller: self,
        }
    }

    // Is `clock` neither below the last accepted now nor above 2^50?
    fn in_time(self, clock: u64) -> bool
        ensures { result ≡ in_time_of self clock }
    {
        (self.numbers.last <= clock) & (clock <= Controller::LATEST)
    }

    // A transmit of a sound controller at an accepted time.
    fn send(self, transmit: Transmit, clock: u64) -> Outcome
        ensures { outcome result ≡ send_of self transmit clock }
    {
        let numbers = self.numbers;
        let delays = self.delays;
        let Transmit::Initial(len) = transmit else {
            return done(numbers.accepted(clock), delays);
        };
        if numbers.free_window() < len {
            return self.refused(Reason::NoWindow);
        }
        done(numbers.transmitted(len).accepted(clock), delays)
    }

    // A transmit. Refused: 19, 11, and a first one that the free window does not hold with 13. The
    // window is checked before anything is recorded.
    pub fn on_transmit(self, transmit: Transmit, clock: u64) -> Outcome
        ensures { outcome result ≡ on_transmit_of self transmit clock }
    {
        if !self.sound() {
            return self.refused(Reason::NotSound);
        }
        if !self.in_time(clock) {
            return self.refused(Reason::BadTime);
        }
        self.send(transmit, clock)
    }

    // The sample taken, and the packet credited to the window and the round trip.
    fn credit(self, packet: Packet, delay: u64, clock: u64) -> Outcome
        requires { (sound_of self.numbers ≡ true) × (clock ≤ 2 ^ 50) × (packet.at ≤ clock) }
        ensures { outcome result ≡ credit_of self packet delay clock }
    {
        let numbers = self.numbers;
        let delays = self.delays;
        let taken = delays.take(delay, clock, numbers.delay_window);
        let trip = clock - packet.at;
        let credited = numbers.acked(taken.base(), delay, packet.length, packet.once, trip);
        done(credited.accepted(clock), taken)
    }

    // A newly acknowledged packet. Refused: 19; 11, also for a delay above 2^50 and a packet sent
    // after `clock`; 12 where less than its length is in flight.
    pub fn on_ack(self, packet: Packet, delay: u64, clock: u64) -> Outcome
        ensures { outcome result ≡ on_ack_of self packet delay clock }
    {
        if !self.sound() {
            return self.refused(Reason::NotSound);
        }
        if !(self.in_time(clock) & (delay <= Controller::LATEST) & (packet.at <= clock)) {
            return self.refused(Reason::BadTime);
        }
        if self.numbers.in_flight < packet.length {
            return self.refused(Reason::NotSent);
        }
        self.credit(packet, delay, clock)
    }

    // A new loss. Refused: 19.
    // (`on_timeout` is alike but for one call; a closure behind the guard would be longer.)
    pub fn on_loss(self) -> Outcome
        ensures { outcome result ≡ on_loss_of self }
    {
        if !self.sound() {
            return self.refused(Reason::NotSound);
        }
        let numbers = self.numbers;
        let delays = self.delays;
        done(numbers.lost(), delays)
    }

    // A timeout event. Refused: 19.
    pub fn on_timeout(self) -> Outcome
        ensures { outcome result ≡ on_timeout_of self }
    {
        if !self.sound() {
            return self.refused(Reason::NotSound);
        }
        let numbers = self.numbers;
        let delays = self.delays;
        done(numbers.timed_out(), delays)
    }

    // How many bytes may be sent now.
    pub fn free_window(self) -> u32
        ensures { result ≡ free_of self.numbers }
    {
        let numbers = self.numbers;
        numbers.free_window()
    }

    // How many bytes are sent and not acknowledged.
    pub fn in_flight(self) -> u32
        ensures { result ≡ self.numbers.in_flight }
    {
        self.numbers.in_flight
    }

    // How many bytes may be in flight.
    pub fn maximum(self) -> u32
        ensures { result ≡ self.numbers.maximum }
    {
        self.numbers.maximum
    }

    // How long to wait for an acknowledgement.
    pub fn timeout(self) -> u64
        ensures { result ≡ self.numbers.timeout }
    {
        self.numbers.timeout
    }
}

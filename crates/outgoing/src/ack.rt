// An ack: its checks, which packets it speaks of, and what a newly acknowledged one moves.
ghost use Rattle.std.specs.Prelude.{◌≡◌, ◌≤◌, ◌-◌, ◌^◌};
ghost use Rattle.outgoing.specs.Answers.{outcome};
ghost use Rattle.outgoing.specs.Ack.{ack_check, credited_by};
ghost use Rattle.outgoing.specs.Hear.{keeps_of, heard_at, step_of};

use crate::answer::{Outcome, Reason};
use crate::kept::Packet;
use congestion::numbers::Numbers;
use congestion::settings::Settings;
use packet::sack;

// The checks of an ack, in their order: 11, 5, 6, 8, 12.
// (Loose numbers, as `ack_check` of specs/Ack has them. No `?`: an `Outcome` is no Result.)
#[tactic(auto, unfolding(crate::specs::Ack::ack_check))]
pub fn ack_check(
    last: u64,
    count: u32,
    offset: u32,
    bytes: usize,
    delay: u64,
    clock: u64,
) -> Outcome
    ensures { outcome result ≡ ack_check last count offset bytes delay clock }
{
    if Settings::LATEST < clock || clock < last || Settings::LATEST < delay {
        return Outcome::Refused(Reason::BadTime);
    }
    if let Err(reason) = sack::check(bytes) {
        return Outcome::Refused(Reason::BadSack(reason));
    }
    if offset == 0 || count < offset {
        return Outcome::Refused(Reason::NotSent);
    }
    Outcome::Done
}

// What an ack brings: the offset of its number, the delay with the base that goes with it, and the
// clock; beside how many packets were sent and how many of them are no longer kept.
#[derive(Clone, Copy)]
pub struct Ack {
    pub offset: u32,
    pub gone: u32,
    pub count: u32,
    pub base: u64,
    pub delay: u64,
    pub clock: u64,
}

// A run of steps: `count` of them, from `from` on.
#[derive(Clone, Copy)]
pub struct Run {
    pub from: u32,
    pub count: u32,
}

impl Ack {
    // Is the packet with this offset kept?
    pub fn keeps(self, offset: u64) -> bool
        ensures { result ≡ keeps_of self offset }
    {
        u64::from(self.gone) < offset && offset <= u64::from(self.count)
    }

    // From its transmit to the ack.
    fn round_trip(self, packet: Packet) -> u64
        ensures { result ≡ self.clock - packet.sent_at }
    {
        self.clock.saturating_sub(packet.sent_at)
    }

    // What a newly acknowledged packet makes of the numbers.
    pub fn credited(self, packet: Packet, numbers: Numbers) -> Numbers
        ensures { result ≡ credited_by self.base self.delay self.clock packet numbers }
    {
        let trip = self.round_trip(packet);
        numbers.acked(self.base, self.delay, packet.len, packet.resent == 0, trip)
    }

    // The offset that a step speaks of, or 0 where it speaks of none: the number itself, each SACK
    // bit upward, then every earlier one that is kept.
    // (0 and no Option, and steps by number: `heard_at` and `step_of` of specs/ are over these.)
    fn heard_at(self, sack: &[u8], bits: u32, step: u64) -> u64
        requires { step ≤ 2 ^ 33 }
        ensures { result ≡ heard_at self sack.now bits step }
    {
        let offset = self.offset as u64;
        if step == 0 {
            return offset;
        }
        if (bits as u64) < step {
            return (self.gone as u64) + (step - (bits as u64));
        }
        if sack::is_set(sack, (step - 1) as usize) {
            return offset + 1 + step;
        }
        0
    }

    // The same of step `j` of the steps of one run and then those of another.
    // (All six are what those two definitions are over, and this is promised by them.)
    pub fn heard(self, sack: &[u8], bits: u32, run: Run, then: Run, j: u32) -> u64
        ensures { result ≡ heard_at self sack.now bits (step_of run then j) }
    {
        self.heard_at(sack, bits, run.step(then, j))
    }

    // How many earlier ones are kept.
    pub fn earlier_count(self) -> u32
        ensures { result ≡ self.offset - 1 - self.gone }
    {
        self.offset.saturating_sub(self.gone).saturating_sub(1)
    }
}

impl Run {
    // Step `j` of the steps of this run and then those of another.
    fn step(self, then: Run, j: u32) -> u64
        ensures { (result ≡ step_of self then j) × (result ≤ 2 ^ 33) }
    {
        if j < self.count {
            return (self.from as u64) + (j as u64);
        }
        (then.from as u64) + ((j - self.count) as u64)
    }
}

// What an ack works on, and whether a packet was newly acknowledged.
// (No call builds it: the definitions of specs/Hear and delivery's theorem are over it.)
#[derive(Clone, Copy)]
pub struct Heard {
    pub packets: [Packet; 512],
    pub numbers: Numbers,
    pub news: bool,
}

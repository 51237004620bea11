// The tracker apart from its packets and its samples, which lie where the caller keeps them: each
// call takes the head by value and these by reference, and copies none of them.
ghost use Rattle.std.specs.Bool.{then_some};
ghost use Rattle.std.specs.Prelude.{◌≡◌, ◌≤◌, take};
ghost use Rattle.common.specs.Answer.{refused};
ghost use Rattle.outgoing.specs.Answers.{reason_number};
ghost use Rattle.outgoing.specs.Sound.{packets_sound_of, in_flight_of};
ghost use Rattle.sent.specs.Full.{Full};
ghost use Rattle.sent.specs.State.{new_answer, timeout_answer, state_sound_of};
ghost use Rattle.sent.specs.Whole.{whole_of, stepped, headed};

use crate::packets::Packets;
use crate::place::Place;
use congestion::numbers::Numbers;
use congestion::settings::Settings;
use controller::samples::{self, Samples};
use outgoing::answer::{Outcome, Reason};
use outgoing::kept::Packet;
use seq::SeqNum;

// A tracker apart from its packets and its samples: `count` packets were sent, with offsets 1 to
// `count` from `initial`. The last `live` of them, from the first unacknowledged one on, stand at
// the front of the packets in order, and the `kept` samples at the front of the samples.
// (Counts of lent arrays: the C header's struct has them so, and docs/STATE.md.)
#[repr(C)]
#[derive(Clone, Copy)]
pub struct Head {
    pub initial: u16,
    pub count: u32,
    pub live: u32,
    pub kept: u32,
    pub numbers: Numbers,
}

// The answer beside the head that the next call takes. A refusal hands the head back as it came.
// (Document 01: a state is a plain value, handed in and handed back.)
#[derive(Clone, Copy)]
pub struct Stepped {
    pub answer: Outcome,
    pub head: Head,
}

// How many bytes are in flight, if the kept packets pass the soundness test? From the back, so that
// the acknowledged ones behind each are known.
fn walked<P: Packets>(packets: &P, live: u32, last: u64) -> Option<u64>
    requires few { live ≤ 512 }
    requires full { Full P.packets P.of_packets packets.now }
    ensures { let l = take live (P.packets packets.now) in
        result ≡ then_some (packets_sound_of last l) (in_flight_of l) }
{
    let mut fine = true;
    let mut in_flight: u64 = 0;
    let mut later: u32 = 0;
    for i in (0..live as usize).rev() {
        let p = packets.packet_at(Place { at: i });
        fine &= p.sound(later, last);
        in_flight += p.flying() as u64;
        later += p.acked_one();
    }
    fine.then_some(in_flight)
}

impl Head {
    // The head as it came, beside the reason of the refusal.
    pub(crate) fn refused(self, reason: Reason) -> Stepped
        ensures { stepped result ≡ (refused (reason_number reason), self) }
    {
        Stepped {
            answer: Outcome::Refused(reason),
            head: self,
        }
    }

    // The head of a fresh tracker, none of whose packets and samples is kept. Refused with 10 where
    // a setting is out of range; what is then handed back is not sound.
    pub fn new(initial: SeqNum, settings: Settings) -> Stepped
        ensures { stepped result ≡ headed (new_answer initial settings) }
    {
        let head = Head {
            initial: initial.0,
            count: 0,
            live: 0,
            kept: 0,
            numbers: Numbers::new(settings),
        };
        if settings.in_range() {
            return Stepped {
                answer: Outcome::Done,
                head,
            };
        }
        Stepped {
            answer: Outcome::Refused(Reason::BadSetting),
            head,
        }
    }

    // Does it pass the soundness test, with the samples and the packets that lie there? More than 512
    // kept are refused before any walk. (`len` and the first packet tell what the last two clauses
    // say, by the traits' clauses.)
    pub fn sound<S: Samples, P: Packets>(self, samples: &S, packets: &P) -> bool
        ensures sound { result ≡ state_sound_of (whole_of self (S.samples samples.now) (P.packets packets.now)) }
        ensures alone { S.of_samples (S.samples samples.now) ≡ samples.now }
        ensures full { Full P.packets P.of_packets packets.now }
    {
        let numbers = self.numbers;
        let _most = samples.len();
        let first = packets.packet_at(Place { at: 0 });
        if Packet::PLACES < self.live {
            return false;
        }
        let delays_sound = samples::sound(samples, self.kept, numbers.last);
        let in_flight = walked(packets, self.live, numbers.last);
        (self.live <= self.count)
            & (self.count <= Packet::MOST_SENT)
            & numbers.sound()
            & delays_sound
            & ((self.live == 0) | first.unacked())
            & (in_flight == Some(numbers.in_flight as u64))
    }

    // A timeout event: the maximum falls to the minimum and the timeout is doubled. Samples and
    // packets stay as they are. Refused with 19.
    pub fn on_timeout<S: Samples, P: Packets>(self, samples: &S, packets: &P) -> Stepped
        ensures answer { let s = whole_of self (S.samples samples.now) (P.packets packets.now) in
            stepped result ≡ headed (timeout_answer s) }
        ensures samples { let s = whole_of self (S.samples samples.now) (P.packets packets.now) in
            samples.now ≡ S.of_samples (timeout_answer s).1.delays.kept }
        ensures packets { let s = whole_of self (S.samples samples.now) (P.packets packets.now) in
            packets.now ≡ P.of_packets (timeout_answer s).1.packets }
    {
        if !self.sound(samples, packets) {
            return self.refused(Reason::NotSound);
        }
        let mut next = self;
        next.numbers = self.numbers.timed_out();
        Stepped {
            answer: Outcome::Done,
            head: next,
        }
    }
}

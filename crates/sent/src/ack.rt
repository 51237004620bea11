// An ack: which packets it speaks of, what each newly acknowledged one moves, and loss.
ghost use Rattle.std.specs.Prelude.{◌≡◌, true, ◌++◌, ◌≤◌, ◌-◌, ◌+◌, length, take, drop};
ghost use Rattle.outgoing.specs.Ack.{heard_of, from_unacked};
ghost use Rattle.outgoing.specs.Hear.{heard_at, run_of, unheard_of, all_heard_of, loss_heard_of};
ghost use Rattle.sent.specs.Full.{Full};
ghost use Rattle.sent.specs.State.{state_sound_of, ack_state_of, ack_answer};
ghost use Rattle.sent.specs.Whole.{whole_of, stepped, headed, heard_in};

use crate::head::{Head, Stepped};
use crate::packets::Packets;
use crate::place::Place;
use congestion::numbers::Numbers;
use controller::delays::Sample;
use controller::samples::{self, Samples};
use outgoing::ack::{Ack, Run, ack_check};
use outgoing::answer::{Outcome, Reason};
use packet::sack;
use seq::SeqNum;

// What an ack makes of the numbers, and whether a packet was newly acknowledged.
// (Both and no Option: `all_heard_of` and `loss_heard_of`, outgoing's specs/Hear, say both.)
#[derive(Clone, Copy)]
pub(crate) struct Marked {
    pub(crate) numbers: Numbers,
    pub(crate) news: bool,
}

// Every packet that the steps of one run, then those of another, speak of. Acknowledged again:
// nothing.
// (Seven parameters: `Ack::heard` is promised over five of them.)
fn hear_runs<P: Packets>(
    packets: &mut P,
    numbers: Numbers,
    ack: Ack,
    sack: &[u8],
    bits: u32,
    run: Run,
    then: Run,
) -> Marked
    requires kept { ack.count ≤ ack.gone + 512 }
    requires steps { run.count + then.count ≤ 65536 }
    requires full { Full P.packets P.of_packets packets.old }
    ensures heard { let step = heard_at ack sack.now bits in
        heard_in result (P.packets packets.new) ≡ all_heard_of ack (unheard_of (P.packets packets.old) numbers) (run_of step run ++ run_of step then) }
    ensures full { Full P.packets P.of_packets packets.new }
{
    let mut heard = Marked {
        numbers,
        news: false,
    };
    for j in 0..run.count + then.count {
        let offset = ack.heard(sack, bits, run, then, j);
        if !ack.keeps(offset) {
            continue;
        }
        let place = Place {
            at: (offset - (ack.gone as u64) - 1) as usize,
        };
        let p = packets.packet_at(place);
        if !p.unacked() {
            continue;
        }
        packets.put_packet(place, p.acked_now());
        heard.numbers = ack.credited(p, heard.numbers);
        heard.news = true;
    }
    heard
}

// Every packet that the ack speaks of: those that it names, then the earlier ones.
// (That the SACK is short is what `ack_check` shows of it: a slice has no type for that.)
fn hear<P: Packets>(packets: &mut P, numbers: Numbers, ack: Ack, sack: &[u8]) -> Marked
    requires gone { ack.gone ≤ ack.count }
    requires kept { ack.count ≤ ack.gone + 512 }
    requires count { ack.count ≤ 60000 }
    requires sent { (1 ≤ ack.offset) × (ack.offset ≤ ack.count) }
    requires sack { length sack.now ≤ 252 }
    requires full { Full P.packets P.of_packets packets.old }
    ensures heard { heard_in result (P.packets packets.new) ≡ all_heard_of ack (unheard_of (P.packets packets.old) numbers) (heard_of ack.count ack.offset sack.now) }
    ensures full { Full P.packets P.of_packets packets.new }
{
    let bits = sack::bit_count(sack) as u32;
    let named = Run {
        from: 0,
        count: 1 + bits,
    };
    let earlier = Run {
        from: 1 + bits,
        count: ack.earlier_count(),
    };
    hear_runs(packets, numbers, ack, sack, bits, named, earlier)
}

// Loss, after the acknowledgements: each packet that is newly lost is marked and counted once. From
// the back, so that the acknowledged ones behind each are known.
// (`packets, live` and `live ≤ 512`, as in three more: `live` is the head's, which shows it.)
fn lose<P: Packets>(packets: &mut P, heard: Marked, live: u32) -> Marked
    requires few { live ≤ 512 }
    requires full { Full P.packets P.of_packets packets.old }
    ensures lost { heard_in result (P.packets packets.new) ≡ loss_heard_of (heard_in heard (P.packets packets.old)) live }
    ensures full { Full P.packets P.of_packets packets.new }
{
    let mut next = heard;
    let mut later: u32 = 0;
    for i in (0..live as usize).rev() {
        let place = Place { at: i };
        let p = packets.packet_at(place);
        if !p.is_newly_lost(later) {
            later += p.acked_one();
            continue;
        }
        packets.put_packet(place, p.lost_now());
        next.numbers = next.numbers.lost();
    }
    next
}

// How many packets at the front are acknowledged.
fn acked_run<P: Packets>(packets: &P, live: u32) -> u32
    requires few { live ≤ 512 }
    requires full { Full P.packets P.of_packets packets.now }
    ensures run { let kept = take live (P.packets packets.now) in from_unacked kept ≡ drop result kept }
    ensures within { result ≤ live }
{
    for run in 0..live {
        let p = packets.packet_at(Place { at: run as usize });
        if p.unacked() {
            return run;
        }
    }
    live
}

// The `left` packets from `first` on, moved down to the front. Nothing moves where they stand
// there.
// (Like controller's of samples: one over both traits would be longer than the two loops.)
fn move_down<P: Packets>(packets: &mut P, first: u32, left: u32)
    requires within { first + left ≤ 512 }
    requires full { Full P.packets P.of_packets packets.old }
    ensures moved { let old = P.packets packets.old in P.packets packets.new ≡ take left (drop first old) ++ drop left old }
    ensures full { Full P.packets P.of_packets packets.new }
{
    if first == 0 {
        return;
    }
    for i in 0..left {
        let p = packets.packet_at(Place {
            at: (first + i) as usize,
        });
        packets.put_packet(Place { at: i as usize }, p);
    }
}

impl Head {
    // What an ack that passed its checks leaves. All packets that it newly acknowledges bring the
    // same sample, which is taken once.
    fn acknowledged<S: Samples, P: Packets>(
        self,
        samples: &mut S,
        packets: &mut P,
        offset: u32,
        sack: &[u8],
        sample: Sample,
    ) -> Head
        requires sound { state_sound_of (whole_of self (S.samples samples.old) (P.packets packets.old)) ≡ true }
        requires sent { (1 ≤ offset) × (offset ≤ self.count) }
        requires sack { length sack.now ≤ 252 }
        requires alone { S.of_samples (S.samples samples.old) ≡ samples.old }
        requires full { Full P.packets P.of_packets packets.old }
        ensures acked { let s = whole_of self (S.samples samples.old) (P.packets packets.old) in
            whole_of result (S.samples samples.new) (P.packets packets.new) ≡ ack_state_of s offset sack.now sample.delay sample.at }
        ensures alone { S.of_samples (S.samples samples.new) ≡ samples.new }
        ensures full { Full P.packets P.of_packets packets.new }
    {
        let numbers = self.numbers;
        let live = self.live;
        let window = numbers.delay_window;
        let ack = Ack {
            offset,
            gone: self.count - live,
            count: self.count,
            base: samples::base_with(samples, self.kept, sample, window),
            delay: sample.delay,
            clock: sample.at,
        };
        let heard = hear(packets, numbers, ack, sack);
        let mut next = self;
        if !heard.news {
            next.numbers = numbers.accepted(sample.at);
            return next;
        }
        let marked = lose(packets, heard, live).numbers;
        let run = acked_run(packets, live);
        move_down(packets, run, live - run);
        next.live = live - run;
        next.numbers = marked.accepted(sample.at);
        next.kept = samples::take(samples, self.kept, sample, window);
        next
    }

    // An ack arrives. An empty SACK means none. Refused with 19, 11, 5, 6, 8, 12, in this order.
    // (Document 01: "Ack, with number, SACK bytes, delay, now".)
    pub fn on_ack<S: Samples, P: Packets>(
        self,
        samples: &mut S,
        packets: &mut P,
        number: SeqNum,
        sack: &[u8],
        delay: u64,
        clock: u64,
    ) -> Stepped
        ensures answer { let s = whole_of self (S.samples samples.old) (P.packets packets.old) in
            stepped result ≡ headed (ack_answer s number sack.now delay clock) }
        ensures samples { let s = whole_of self (S.samples samples.old) (P.packets packets.old) in
            samples.new ≡ S.of_samples (ack_answer s number sack.now delay clock).1.delays.kept }
        ensures packets { let s = whole_of self (S.samples samples.old) (P.packets packets.old) in
            packets.new ≡ P.of_packets (ack_answer s number sack.now delay clock).1.packets }
    {
        if !self.sound(samples, packets) {
            return self.refused(Reason::NotSound);
        }
        let last = self.numbers.last;
        let offset = number.offset_from(SeqNum(self.initial)).0 as u32;
        let check = ack_check(last, self.count, offset, sack.len(), delay, clock);
        if let Outcome::Refused(reason) = check {
            return self.refused(reason);
        }
        let sample = Sample { delay, at: clock };
        Stepped {
            answer: Outcome::Done,
            head: self.acknowledged(samples, packets, offset, sack, sample),
        }
    }
}

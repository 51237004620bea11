// What is read of a state: its number is answered, and its value goes to the caller's memory.
// (Numbers, and a place of the caller's for each value: include/ribsaddle.h.)
ghost use Rattle.std.specs.Prelude.{◌≡◌, ℕ};
ghost use Rattle.outgoing.specs.Answers.{answer_told};
ghost use Rattle.ribsaddle.specs.Answer.{number_of, part_or, bit_of};
ghost use Rattle.ribsaddle.specs.Tracker.{seq_of, start_of, end_of, lost_number_of, lost_type_of, lost_tag_of};
ghost use Rattle.ribsaddle.specs.Receiver.{told_answer};

use outgoing::answer::{LostPacket, Told};
use seq::{CircularRangeInclusive, SeqNum};

// What C is handed as one number.
pub(crate) trait Whole: Copy {
    ghost number: { Self → ℕ };

    fn whole(self) -> u64
        ensures { result ≡ number self };
}

impl Whole for u64 {
    ghost number = { λ n. n };

    fn whole(self) -> u64 {
        self
    }
}

impl Whole for usize {
    ghost number = { λ n. n };

    fn whole(self) -> u64 {
        self as u64
    }
}

impl Whole for SeqNum {
    ghost number = { seq_of };

    fn whole(self) -> u64 {
        u64::from(self.0)
    }
}

impl Whole for bool {
    ghost number = { bit_of };

    fn whole(self) -> u64 {
        u64::from(self)
    }
}

pub(crate) fn tell<T: Whole>(told: Told<T>, value: &mut u64) -> u32
    ensures { (result ≡ number_of (answer_told told)) × (value.new ≡ part_or T.number value.old (answer_told told)) }
{
    match told {
        Told::Is(known) => {
            *value = known.whole();
            0
        }
        Told::Refused(reason) => reason.number(),
    }
}

// (Apart from `tell`: here two values go to two places, and below three to three.)
pub(crate) fn tell_range(told: Told<CircularRangeInclusive>, start: &mut u64, end: &mut u64) -> u32
    ensures { (result ≡ number_of (answer_told told)) × (start.new ≡ part_or start_of start.old (answer_told told))
        × (end.new ≡ part_or end_of end.old (answer_told told)) }
{
    match told {
        Told::Is(range) => {
            *start = range.start.whole();
            *end = range.end.whole();
            0
        }
        Told::Refused(reason) => reason.number(),
    }
}

pub(crate) fn tell_lost(
    told: Told<LostPacket>,
    number: &mut u64,
    packet_type: &mut u64,
    tag: &mut u64,
) -> u32
    ensures { (result ≡ number_of (answer_told told)) × (number.new ≡ part_or lost_number_of number.old (answer_told told))
        × (packet_type.new ≡ part_or lost_type_of packet_type.old (answer_told told))
        × (tag.new ≡ part_or lost_tag_of tag.old (answer_told told)) }
{
    match told {
        Told::Is(lost) => {
            *number = lost.seq_num.whole();
            *packet_type = u64::from(lost.packet_type.number());
            *tag = u64::from(lost.tag);
            0
        }
        Told::Refused(reason) => reason.number(),
    }
}

// What is told of a receiver, whose refusals are its own. A trait over both kinds of `Told` would
// be longer than this second function.
pub(crate) fn tell_received<T: Whole>(told: recv::Told<T>, value: &mut u64) -> u32
    ensures { (result ≡ number_of (told_answer told)) × (value.new ≡ part_or T.number value.old (told_answer told)) }
{
    match told {
        recv::Told::Is(known) => {
            *value = known.whole();
            0
        }
        recv::Told::Refused(reason) => reason.number(),
    }
}

// Where delay samples lie, and the work on those that are kept, written once for every such place:
// the first `count` of 1,024, oldest first. What stands past them is left as it was.
ghost use Rattle.std.specs.Prelude.{◌≡◌, List, ◌++◌, ◌+◌, ◌-◌, ◌≤◌, length, get_or, set, take, drop};
ghost use Rattle.controller.specs.declared.delays.Sample.{Sample};
ghost use Rattle.controller.specs.Delays.{delays_of, list_of, expired_of, not_smaller_of, drop_front, drop_back, most, no_sample, taken_of, base_of, delays_sound_of};

use crate::delays::{Delays, Sample, expired, room};
use congestion::settings::Settings;

// A place where 1,024 samples lie.
pub trait Samples {
    // The samples in order, the first at place 0.
    ghost samples: { Self → List Sample };

    // What it is when these samples lie there.
    ghost of_samples: { List Sample → Self };

    // How many lie there. Nothing besides them does.
    fn len(&self) -> usize
        ensures len { result ≡ most }
        ensures alone { of_samples (samples self.now) ≡ self.now };

    // The sample at a place. Past the last there is none: delay and time are 0.
    fn sample(&self, i: usize) -> Sample
        ensures found { result ≡ get_or (samples self.now) i no_sample }
        ensures full { length (samples self.now) ≡ most };

    // Puts a sample at a place. Past the last nothing changes.
    fn put(&mut self, i: usize, sample: Sample)
        ensures put { samples self.new ≡ set (samples self.old) i sample }
        ensures full { length (samples self.new) ≡ most }
        ensures alone { of_samples (samples self.new) ≡ self.new };
}

impl Samples for [Sample; 1024] {
    ghost samples = { λ kept. kept };

    ghost of_samples = { λ kept. kept };

    fn len(&self) -> usize {
        1024
    }

    fn sample(&self, i: usize) -> Sample {
        self.get(i).copied().unwrap_or_default()
    }

    fn put(&mut self, i: usize, sample: Sample) {
        if i < 1024 {
            self[i] = sample;
        }
    }
}

// Do they pass the soundness test: at most 1,024, delays that rise and times that do not fall, up
// to 2^50 and `last`? From the back, so that each is tested against the one behind it.
// (`samples, count` stand apart: `count` is a field of the state that goes on.)
pub fn sound<S: Samples>(samples: &S, count: u32, last: u64) -> bool
    ensures sound { result ≡ delays_sound_of last (delays_of (S.samples samples.now) count) }
    ensures alone { S.of_samples (S.samples samples.now) ≡ samples.now }
{
    if samples.len() < count as usize {
        return false;
    }
    let mut next = Sample {
        delay: Settings::LATEST + 1,
        at: last,
    };
    for i in (0..count as usize).rev() {
        let s = samples.sample(i);
        if next.delay <= s.delay {
            return false;
        }
        if next.at < s.at {
            return false;
        }
        next = s;
    }
    true
}

// How many samples at the front are expired.
// (One by one, as document 01's step 1 drops them, and no binary search: no slice lies there.)
fn expired_count<S: Samples>(samples: &S, count: usize, window: u64, clock: u64) -> usize
    ensures { let kept = list_of (delays_of (S.samples samples.now) count) in
        (drop_front (expired_of window clock) kept ≡ drop result kept) × (result ≤ count) }
{
    for i in 0..count {
        if !expired(samples.sample(i).at, window, clock) {
            return i;
        }
    }
    count
}

// How many of the samples from `first` on remain, when those at the back are dropped whose delay is
// not smaller than the new one.
fn remaining_count<S: Samples>(samples: &S, count: usize, first: usize, delay: u64) -> usize
    requires { (first ≤ count) × (count ≤ 1024) }
    ensures { let kept = list_of (delays_of (S.samples samples.now) count) in
        (drop_back (not_smaller_of delay) (drop first kept) ≡ take result (drop first kept)) × (result ≤ count - first) }
{
    for i in (first..count).rev() {
        if samples.sample(i).delay < delay {
            return i + 1 - first;
        }
    }
    0
}

// The base delay that goes with `sample`, once that is taken.
pub fn base_with<S: Samples>(samples: &S, count: u32, sample: Sample, window: u64) -> u64
    ensures { result ≡ base_of (list_of (taken_of (delays_of (S.samples samples.now) count) sample.delay sample.at window)) }
{
    if Delays::MOST < count {
        return samples.sample(0).delay;
    }
    let first = expired_count(samples, count as usize, window, sample.at);
    let left = remaining_count(samples, count as usize, first, sample.delay);
    if left == 0 {
        return sample.delay;
    }
    samples.sample(first).delay
}

// The `left` samples from `first` on, moved down to the front. None moves where they stand there.
// (By the trait's methods, as in sent's `move_down`: columns have no `copy_within` of records.)
fn move_down<S: Samples>(samples: &mut S, first: usize, left: usize)
    requires { first + left ≤ 1024 }
    ensures { let kept = S.samples samples.old in
        S.samples samples.new ≡ take left (drop first kept) ++ drop left kept }
{
    if first == 0 {
        return;
    }
    for i in 0..left {
        let s = samples.sample(first + i);
        samples.put(i, s);
    }
}

// Takes `sample`, and answers how many are kept then: what remains is moved down to the front, and
// the sample put behind it. Where more than 1,024 are kept, nothing changes.
pub fn take<S: Samples>(samples: &mut S, count: u32, sample: Sample, window: u64) -> u32
    ensures taken { delays_of (S.samples samples.new) result ≡ taken_of (delays_of (S.samples samples.old) count) sample.delay sample.at window }
    ensures alone { S.of_samples (S.samples samples.new) ≡ samples.new }
{
    if samples.len() < count as usize {
        return count;
    }
    let first = expired_count(samples, count as usize, window, sample.at);
    let left = remaining_count(samples, count as usize, first, sample.delay);
    let stay = room(left);
    move_down(samples, first, left);
    samples.put(stay, sample);
    (stay + 1) as u32
}

// The kept delay samples, and the base delay that they give.
ghost use Rattle.std.specs.Prelude.{◌≡◌, ◌+◌, ◌-◌, leb, take};
ghost use Rattle.controller.specs.Delays.{list_of, no_delays, taken_of, base_of, delays_sound_of, room_count_of};

use crate::samples;

// A delay, and the time at which it was heard of.
#[repr(C)]
#[derive(Clone, Copy, Default)]
pub struct Sample {
    pub delay: u64,
    pub at: u64,
}

// The kept samples stand at the front, oldest first. What stands past them is left as it was.
// (An array with a count, and no Vec: the port's states are fixed records, with no heap.)
#[repr(C)]
#[derive(Clone, Copy)]
pub struct Delays {
    pub kept: [Sample; 1024],
    pub count: u32,
}

// Is `clock` at or past `at` plus the delay window?
pub fn expired(at: u64, window: u64, clock: u64) -> bool
    ensures { result ≡ leb (at + window) clock }
{
    window <= clock && at <= clock - window
}

// How many stay of `left`: if 1,024 remain, the last is dropped.
// (No `min`: above 1,024 `room_count_of` hands `left` back.)
pub fn room(left: usize) -> usize
    ensures { result ≡ room_count_of left }
{
    if left == 1024 { 1023 } else { left }
}

impl Delays {
    // How many samples may be kept.
    pub const MOST: u32 = 1024;

    // No sample yet.
    pub fn none() -> Delays
        ensures { result ≡ no_delays }
    {
        Delays {
            kept: [Sample::default(); 1024],
            count: 0,
        }
    }

    // The base delay: that of the first, or 0 where none is kept.
    pub fn base(self) -> u64
        ensures { result ≡ base_of (list_of self) }
    {
        if self.count == 0 {
            0
        } else {
            self.kept[0].delay
        }
    }

    // Does it pass the soundness test: at most 1,024, delays that rise and times that do not fall,
    // up to 2^50 and `last`?
    pub fn sound(self, last: u64) -> bool
        ensures { result ≡ delays_sound_of last self }
    {
        samples::sound(&self.kept, self.count, last)
    }

    // With the sample (delay, clock) taken: what remains is moved down to the front, and the sample
    // put behind it. More than 1,024 kept are handed back as they came.
    pub fn take(self, delay: u64, clock: u64, window: u64) -> Delays
        ensures { result ≡ taken_of self delay clock window }
    {
        let mut next = self;
        let sample = Sample { delay, at: clock };
        next.count = samples::take(&mut next.kept, self.count, sample, window);
        next
    }
}

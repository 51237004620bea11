// The delay samples as an array of integers.
ghost use Rattle.sent_lent.specs.Lent.{samples_in, pairs_as};

use controller::delays::Sample;
use controller::samples::Samples;

// Sample `i` has its delay at place 2i, and its time behind it.
// (One array for both: the C header's struct has it so, and docs/STATE.md.)
#[repr(C)]
#[derive(Clone, Copy)]
pub struct Pairs {
    pub pairs: [u64; 2048],
}

impl Samples for Pairs {
    ghost samples = { λ s. samples_in s.pairs };

    ghost of_samples = { pairs_as };

    fn len(&self) -> usize {
        1024
    }

    fn sample(&self, i: usize) -> Sample {
        if 1024 <= i {
            return Sample::default();
        }
        Sample {
            delay: self.pairs[2 * i],
            at: self.pairs[2 * i + 1],
        }
    }

    fn put(&mut self, i: usize, sample: Sample) {
        if i < 1024 {
            self.pairs[2 * i] = sample.delay;
            self.pairs[2 * i + 1] = sample.at;
        }
    }
}

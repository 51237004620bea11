// What is counted over a run, to be summed up over the runs.
use crate::refusal::Refusal;
use std::fmt;
use std::fmt::{Display, Formatter};

#[derive(Clone, Copy)]
pub(crate) struct Counts {
    pub packets: u64,
    pub lost: u64,
    pub repeated: u64,
    pub again: u64,
    pub refusals: u64,
    pub bytes_in: u64,
    pub bytes_out: u64,
    pub wrong: u64,
    // How many refusals have each answer number, of which there are fewer than 32.
    pub refused: [u64; 32],
}

// Adds to a count.
pub(crate) fn add(count: &mut u64, more: u64) {
    *count = count.wrapping_add(more);
}

impl Counts {
    pub(crate) fn new() -> Self {
        Self {
            packets: 0,
            lost: 0,
            repeated: 0,
            again: 0,
            refusals: 0,
            bytes_in: 0,
            bytes_out: 0,
            wrong: 0,
            refused: [0; 32],
        }
    }

    // Counts a refusal.
    pub(crate) fn refuse(&mut self, refusal: Refusal) {
        add(&mut self.refusals, 1);
        add(&mut self.refused[refusal.number() as usize % 32], 1);
    }

    // Adds what another run counted.
    pub(crate) fn add_all(&mut self, other: &Counts) {
        add(&mut self.packets, other.packets);
        add(&mut self.lost, other.lost);
        add(&mut self.repeated, other.repeated);
        add(&mut self.again, other.again);
        add(&mut self.refusals, other.refusals);
        add(&mut self.bytes_in, other.bytes_in);
        add(&mut self.bytes_out, other.bytes_out);
        add(&mut self.wrong, other.wrong);
        for (count, more) in self.refused.iter_mut().zip(other.refused) {
            add(count, more);
        }
    }
}

impl Display for Counts {
    fn fmt<W: fmt::Write>(&self, f: &mut Formatter<W>) -> fmt::Result {
        let Counts {
            packets,
            lost,
            repeated,
            again,
            refusals,
            bytes_in,
            bytes_out,
            ..
        } = self;
        write!(
            f,
            "packets {packets}, lost {lost}, repeated {repeated}, sent again {again}, "
        )?;
        write!(
            f,
            "refused {refusals}, bytes in {bytes_in}, bytes out {bytes_out}"
        )
    }
}

// What happened over a run.
use recv::Writing;
use std::fmt;
use std::fmt::{Display, Formatter};

#[derive(Clone, Copy, Default)]
pub(crate) struct Totals {
    stored: u64,
    there: u64,
    refused: u64,
    read: u64,
    wrong: u64,
    acks: u64,
    bits: u64,
}

impl Totals {
    // What a write answered.
    pub(crate) fn written(&mut self, answer: Writing) {
        match answer {
            Writing::Stored => self.stored = self.stored.wrapping_add(1),
            Writing::AlreadyThere => self.there = self.there.wrapping_add(1),
            Writing::Refused(_) => self.refused = self.refused.wrapping_add(1),
        }
    }

    // So many bytes were read, and so many of them were not those that were sent.
    pub(crate) fn taken(&mut self, count: usize, wrong: usize) {
        self.read = self.read.wrapping_add(count as u64);
        self.wrong = self.wrong.wrapping_add(wrong as u64);
    }

    // An acknowledgement was built, with so many bytes of SACK.
    pub(crate) fn acked(&mut self, count: usize) {
        self.acks = self.acks.wrapping_add(1);
        self.bits = self.bits.wrapping_add(count as u64);
    }
}

impl Display for Totals {
    fn fmt<W: fmt::Write>(&self, f: &mut Formatter<W>) -> fmt::Result {
        let Totals {
            stored,
            there,
            refused,
            read,
            wrong,
            acks,
            bits,
        } = self;
        write!(
            f,
            "stored {stored}, there {there}, refused {refused}, bytes read {read}, "
        )?;
        write!(
            f,
            "of them wrong {wrong}, acks {acks}, bytes of SACK {bits}"
        )
    }
}

// The totals over the runs.
use crate::counts::{Counts, add};
use crate::run::{Ended, Verdict};
use std::fmt;
use std::fmt::{Display, Formatter};

// How many runs, how many of them did not end with every byte in its place, and all their counts.
#[derive(Clone, Copy)]
pub(crate) struct Totals {
    runs: u64,
    differ: u64,
    counts: Counts,
}

impl Totals {
    pub(crate) fn new() -> Self {
        Self {
            runs: 0,
            differ: 0,
            counts: Counts::new(),
        }
    }

    // One run more.
    pub(crate) fn add(&mut self, run: &Ended) {
        add(&mut self.runs, 1);
        add(&mut self.differ, u64::from(run.verdict != Verdict::Equal));
        self.counts.add_all(&run.counts);
    }
}

impl Display for Totals {
    fn fmt<W: fmt::Write>(&self, f: &mut Formatter<W>) -> fmt::Result {
        let Totals {
            runs,
            differ,
            counts,
        } = self;
        write!(f, "{runs} runs: {counts}; refusals by number")?;
        for (answer, count) in counts.refused.iter().enumerate() {
            if *count > 0 {
                write!(f, " {answer}:{count}")?;
            }
        }
        write!(f, "; runs that differ {differ}")
    }
}

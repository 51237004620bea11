// Counting cases that were compared with what is expected of them, and the line that reports it.
use std::fmt;
use std::fmt::{Display, Formatter};
use std::io::Result;
use std::str::from_utf8;

// How many cases were compared, how many differ, how many have each answer number, and the indices
// of the first that differ: of the eight as many as differ. No Vec, so that a tally is copied and
// never fails.
#[derive(Clone, Copy)]
pub struct Tally {
    pub compared: u64,
    pub differ: u64,
    pub answers: [u64; 32],
    pub first: [u64; 8],
}

// What is said of a tally: `COUNT compared; answers NUMBER:COUNT ..; COUNT differ`, and behind it
// the indices of the first cases that differ.
#[derive(Drop)]
struct Counts<'a>(&'a Tally);

impl Tally {
    pub fn new() -> Self {
        Self {
            compared: 0,
            differ: 0,
            answers: [0; 32],
            first: [0; 8],
        }
    }

    // One case more, with the answer that is expected of it.
    pub fn counted(mut self, answer: u64, is_same: bool) -> Self {
        let place = (answer % 32) as usize;
        self.answers[place] = self.answers[place].wrapping_add(1);
        if !is_same {
            if self.differ < 8 {
                self.first[self.differ as usize] = self.compared;
            }
            self.differ = self.differ.wrapping_add(1);
        }
        self.compared = self.compared.wrapping_add(1);
        self
    }

    // Prints the name, and behind a colon what is said of the tally, in one write where the name is
    // text. Fails where the line was not all written.
    pub fn print(&self, rt: &impl Print, name: &[u8]) -> Result<()> {
        let counts = Counts(self);
        if let Ok(text) = from_utf8(name) {
            return println!(rt; "{text}: {counts}");
        }
        rt.write_all(name)?;
        println!(rt; ": {counts}")
    }
}

impl Display for Counts<'_> {
    fn fmt<W: fmt::Write>(&self, f: &mut Formatter<W>) -> fmt::Result {
        let tally = self.0;
        let compared = tally.compared;
        let differ = tally.differ;
        write!(f, "{compared} compared; answers")?;
        // (voyage's totals have these five lines, too: a type with a Display is longer.)
        for (answer, count) in tally.answers.iter().enumerate() {
            if *count > 0 {
                write!(f, " {answer}:{count}")?;
            }
        }
        write!(f, "; {differ} differ")?;
        for (_, index) in (0..differ).zip(&tally.first) {
            write!(f, " {index}")?;
        }
        Ok(())
    }
}

// A random run of the receiver: 160,000 steps over four receivers, each step a write, a read and
// every sixteenth an acknowledgement, in which every byte read must be the byte that was sent. The
// numbers come from a small generator with a fixed seed. Prints a line of totals for each receiver.

#![tactic(auto)]

use seq::SeqNum;
use std::io::Result;

mod payload;
mod session;
mod totals;

// The initial number and the seed of each receiver.
const RUNS: [(u16, u64); 4] = [
    (0, 88172645463325252),
    (65000, 362436069),
    (65535, 521288629),
    (30000, 1234567),
];

fn main(rt: HostRuntime) -> Result<()> {
    for (initial, seed) in RUNS {
        let totals = session::run(SeqNum(initial), seed);
        println!(rt; "{totals}")?;
    }
    Ok(())
}

// Both ends of the port, and a channel between them that loses, repeats, delays and reorders real
// datagrams. First a run of fixed steps, printed step by step; then 240 seeded runs, a line each;
// then a line of totals, which says of how many runs the bytes differ. Every byte that is read is
// compared with the one that was sent. With a seed as its argument it prints that run alone, step
// by step.

#![tactic(auto)]

mod book;
mod channel;
mod counts;
mod plan;
mod receiver;
mod refusal;
mod run;
mod script;
mod sender;
mod step;
mod told;
mod totals;
mod tracker;

use book::Book;
use plan::Plan;
use report::text::front;
use run::Ended;
use std::env::{Env, FillError};
use std::io::Result;
use step::{Step, drawn_step};
use totals::Totals;

// The seeded runs.
const LAST_SEED: u64 = 240;

// Where a run's steps come from. (By one type for both, so that there is one `run`, with one frame:
// with a closure's own type each it was laid into its callers, and took twice the stack.)
type Steps = fn(&Book, usize) -> Step;

// The run of a seed, and its line.
fn seeded(rt: &impl Print, seed: u64, is_shown: bool) -> Result<Ended> {
    let steps: Steps = |book, _| drawn_step(book);
    let run = run::run(rt, Plan::of_seed(seed), steps, is_shown)?;
    println!(rt; "{run}")?;
    Ok(run)
}

// The run of fixed steps, step by step, and its line.
fn fixed(rt: &impl Print) -> Result<Ended> {
    let steps: Steps = |_, index| script::step_at(index);
    let run = run::run(rt, script::plan(), steps, true)?;
    println!(rt; "fixed steps, {run}")?;
    Ok(run)
}

// The fixed steps, the seeded runs and the totals.
fn whole(rt: &impl Print) -> Result<()> {
    let mut totals = Totals::new();
    totals.add(&fixed(rt)?);
    for seed in 1..=LAST_SEED {
        totals.add(&seeded(rt, seed, false)?);
    }
    println!(rt; "{totals}")
}

// The number of the digits, of which up to nine count; what is no digit changes nothing.
fn number(digits: &[u8]) -> u64 {
    digits
        .iter()
        .filter_map(|byte| char::from(*byte).to_digit(10))
        .fold(0, |n, digit| n % 100000000 * 10 + u64::from(digit))
}

fn main(rt: HostRuntime) -> Result<()> {
    let mut word = [0u8; 4096];
    let digits = match rt.arg(1, &mut word) {
        Ok(length) => front(&word, length),
        // Of an argument that does not fit nothing is taken.
        Err(FillError::TooLong) => b"",
        Err(FillError::NotPresent) => return whole(&rt),
    };
    seeded(&rt, number(digits), true)?;
    Ok(())
}

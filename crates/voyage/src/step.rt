// The steps of a run, and how they are drawn.
use crate::book::Book;
use crate::plan::Plan;

// What the channel does with a datagram: it takes it out and hands it over, by a clock that is so
// far back; it hands it over and keeps it; it takes it out, and that is all.
#[derive(Clone, Copy)]
pub(crate) enum Way {
    Hand(u64),
    Repeat,
    Lose,
}

// What can be done. The numbers are: how far past the next packet, and how far back the clock is; a
// place of the channel to look from; room for the SACK; bytes to read; a position of the lost list.
// An enum and not closures: the fixed steps are a table, and a table of closures would be boxed.
#[derive(Clone, Copy)]
pub(crate) enum Step {
    Send(u64, u64),
    Pass(Way, u64),
    Build(u64),
    Read(u64),
    SendLost(u64),
    TimeOut,
}

// How far back a clock goes: mostly not at all.
fn back_of(drawn: u64) -> u64 {
    if drawn % 16 == 0 {
        1 + drawn / 16 % 100000
    } else {
        0
    }
}

fn send_step(drawn: u64) -> Step {
    if drawn % 64 == 1 {
        Step::Send(1 + drawn / 64 % 9, 0)
    } else {
        Step::Send(0, back_of(drawn / 64))
    }
}

fn way_of(plan: &Plan, drawn: u64) -> Way {
    let losses = u64::from(plan.losses);
    let repeats = u64::from(plan.repeats);
    match drawn % 16 {
        chance if chance < losses => Way::Lose,
        chance if chance < losses + repeats => Way::Repeat,
        _ => Way::Hand(back_of(drawn / 1024)),
    }
}

fn build_step(plan: &Plan, drawn: u64) -> Step {
    if drawn % (u64::from(plan.patience) + 1) != 0 {
        Step::Read(drawn)
    } else if drawn / 64 % 16 == 0 {
        Step::Build(drawn / 1024 % 32)
    } else {
        Step::Build(32)
    }
}

fn timeout_step(plan: &Plan, drawn: u64) -> Step {
    if drawn % (u64::from(plan.calm) + 1) == 0 {
        Step::TimeOut
    } else {
        Step::Read(drawn % 3)
    }
}

// The step that the number drawn last stands for.
pub(crate) fn drawn_step(book: &Book) -> Step {
    let plan = &book.plan;
    let drawn = book.drawn / 16;
    let rest = drawn / 32;
    match drawn % 32 {
        0..=9 => send_step(rest),
        10..=22 => Step::Pass(way_of(plan, rest), rest / 16),
        23..=25 => build_step(plan, rest),
        26..=28 => Step::Read(rest % 700),
        29..=30 => Step::SendLost(rest),
        _ => timeout_step(plan, rest),
    }
}

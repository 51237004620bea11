// Replays recorded sessions of the congestion controller (oracle/README.md) and compares every
// answer and every number after each event. One line for each list: its events by answer number.

#![tactic(auto)]

use event::Totals;
use feed::sessions;
use report::input::list;
use std::io::Result;
use std::rt::Files;

mod event;

fn replay(rt: &(impl Print + Eprint + AllocGlobal + Files), name: &str) -> Result<()> {
    let Some(list) = list(rt, name)? else {
        return Ok(());
    };
    let mut totals = Totals::new();
    sessions::replay(list, &mut totals);
    totals.sessions.print(rt, b"sessions")?;
    totals.events.print(rt, name.as_bytes())
}

fn main(rt: HostRuntime) -> Result<()> {
    replay(&rt, "congestion.bin")?;
    replay(&rt, "congestion-clock.bin")
}

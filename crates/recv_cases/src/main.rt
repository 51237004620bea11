// Replays recorded sessions of the receiver (oracle/README.md) and compares every answer, every
// byte that is read or acknowledged, and every byte of lent room that must stay as it was. One line
// for the sessions, and one for the events of each kind by answer number.

#![tactic(auto)]

use session::replay;
use std::io::Result;

mod event;
mod kind;
mod session;

fn print(rt: &impl Print, list: &[u8]) -> Result<()> {
    let tallies = replay(list);
    tallies.sessions.print(rt, b"sessions")?;
    tallies.writes.print(rt, b"write")?;
    tallies.reads.print(rt, b"read")?;
    tallies.acks.print(rt, b"ack")?;
    tallies.asks.print(rt, b"ask")?;
    tallies.runs.print(rt, b"run")
}

fn main(rt: HostRuntime) -> Result<()> {
    print(&rt, &list::read(&rt, "recv.bin"))
}

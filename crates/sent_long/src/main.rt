// Runs a recorded session of 60,000 packets to its end, and prints a line for its events of each
// kind by answer number, and one for how it ended.

#![tactic(auto)]

use report::input::list;
use sent_replay::session::replay;
use std::io::Result;

fn main(rt: HostRuntime) -> Result<()> {
    let Some(list) = list(&rt, "sent-long.bin")? else {
        return Ok(());
    };
    let totals = replay(list);
    let kinds = totals.kinds;
    let last = totals.last;
    kinds.sessions.print(&rt, b"sessions")?;
    kinds.transmits.print(&rt, b"transmit")?;
    kinds.runs.print(&rt, b"runs of transmits")?;
    kinds.acks.print(&rt, b"ack")?;
    kinds.timeouts.print(&rt, b"timeout")?;
    println!(rt; "packets, in flight, maximum, timeout, ack: {last}")
}

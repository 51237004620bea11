// Replays recorded sessions of the tracker and prints a line for the sessions, and one for the
// events of each kind by answer number.

#![tactic(auto)]

use report::input::list;
use sent_replay::session::replay;
use std::io::Result;

fn main(rt: HostRuntime) -> Result<()> {
    let Some(list) = list(&rt, "sent.bin")? else {
        return Ok(());
    };
    let kinds = replay(list).kinds;
    kinds.sessions.print(&rt, b"sessions")?;
    kinds.transmits.print(&rt, b"transmit")?;
    kinds.acks.print(&rt, b"ack")?;
    kinds.timeouts.print(&rt, b"timeout")
}

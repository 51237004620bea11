// A run of fixed steps: datagrams that are lost, repeated and out of order, an ack that arrives
// late, refused calls at each end, retransmissions.
use crate::plan::Plan;
use crate::step::{Step, Way};
use seq::SeqNum;

// A number behind a step is as `Step` has it. The places of the channel are filled from 0 on.
const STEPS: [Step; 38] = [
    Step::Send(0, 0),
    Step::Send(0, 0),
    Step::Send(0, 0),
    // The second is lost; the third arrives before the first, and twice.
    Step::Pass(Way::Lose, 1),
    Step::Pass(Way::Repeat, 2),
    // No room for the SACK. Then an ack of the initial number.
    Step::Build(0),
    Step::Build(32),
    Step::Pass(Way::Hand(0), 2),
    Step::Pass(Way::Hand(0), 0),
    // This ack stays in the channel until step 24.
    Step::Build(32),
    // The clock goes back; a number is left out.
    Step::Send(0, 900000),
    Step::Send(1, 0),
    Step::Send(0, 0),
    Step::Send(0, 0),
    Step::Pass(Way::Hand(0), 3),
    Step::Pass(Way::Hand(0), 2),
    Step::Build(32),
    Step::Pass(Way::Hand(0), 2),
    Step::Pass(Way::Hand(0), 1),
    // Three later ones are acknowledged, so the second is lost for the tracker too.
    Step::SendLost(0),
    Step::Pass(Way::Hand(0), 1),
    Step::Read(50),
    Step::Build(32),
    Step::Pass(Way::Hand(0), 1),
    Step::Pass(Way::Hand(0), 0),
    // The sixth finds no room, and is lost after a timeout, and its ack after another.
    Step::Send(0, 0),
    Step::Pass(Way::Hand(0), 0),
    Step::Read(4000),
    Step::TimeOut,
    Step::Pass(Way::Lose, 0),
    Step::TimeOut,
    Step::Pass(Way::Hand(0), 0),
    Step::Build(32),
    Step::Pass(Way::Lose, 0),
    Step::TimeOut,
    Step::Pass(Way::Hand(0), 0),
    Step::Build(32),
    Step::Pass(Way::Hand(0), 0),
];

// The step of an index; after the last, all is read.
pub(crate) fn step_at(index: usize) -> Step {
    STEPS.get(index).copied().unwrap_or(Step::Read(4000))
}

// What that run is set up with.
pub(crate) fn plan() -> Plan {
    Plan {
        seed: 9,
        initial: SeqNum(65533),
        to_send: 6,
        most: 999,
        length: 1850,
        largest: 1400,
        depth: 64,
        losses: 0,
        repeats: 0,
        patience: 0,
        calm: 0,
    }
}

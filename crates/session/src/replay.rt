// Where a replay of a recorded session stands, and what its functions answer.
ghost use Rattle.std.specs.Prelude.{◌≡◌};
ghost use Rattle.session.specs.Answers.{step_number};

use crate::line::{Bad, Line};
use sent::state::SentPackets;

// Where a replay stands: the index of the next event and how many there are, the place of the SACK
// bytes that are not used up yet, and the tracker. A plain value that may be forged, so the file
// that `sack_at` is a place of is lent to each call beside it.
#[derive(Clone, Copy)]
pub struct Replay {
    pub index: u32,
    pub count: u32,
    pub sack_at: usize,
    pub state: SentPackets,
}

// What a file is answered, and the replay before its first event; beside a refusal it has no sound
// tracker.
// (Document 01: a state is a plain value, handed in and handed back.)
#[derive(Clone, Copy)]
pub struct Started {
    pub answer: Result<(), Bad>,
    pub replay: Replay,
}

// Why a step is refused, which no replay of a file from its start meets: the event or its SACK
// bytes are not in the file, or the event is not known (20), or the tracker is not sound (19).
#[derive(Clone, Copy)]
pub enum StepReason {
    BadSession,
    NotSound,
}

impl StepReason {
    // The number of the refusal. A method and no `From`: docs/PROMISES.md promises `number`.
    pub fn number(self) -> u32
        ensures { result ≡ step_number self }
    {
        match self {
            StepReason::BadSession => 20,
            StepReason::NotSound => 19,
        }
    }
}

// The line of the event that was taken, none where no event is left, or why the step is refused;
// and the replay behind it, which a refusal and the end hand back as it came.
// (Document 01: a state is a plain value, handed in and handed back.)
#[derive(Clone, Copy)]
pub struct Stepped {
    pub told: Result<Option<Line>, StepReason>,
    pub replay: Replay,
}

// How much of a room is filled, whether no event is left to print, and where the replay then
// stands. Not an `Option<Replay>`: an ended replay is told too (`turn_of`).
// (`used` is a place in the room that is lent: there is no heap.)
#[derive(Clone, Copy)]
pub struct Filled {
    pub used: usize,
    pub ended: bool,
    pub replay: Replay,
}

// A room filled with the lines of the next events.
ghost use Rattle.std.specs.Prelude.{◌+◌, ◌≤◌, ◌≡◌, length};
ghost use Rattle.session.specs.Replay.{step_answer, turn_of, fill_answer};

use crate::line::{Text, has_room};
use crate::replay::{Filled, Replay};

// One turn of filling a room: the next event's line goes behind what is written.
fn turn(replay: Replay, file: &[u8], room: &mut [u8], used: usize) -> Filled
    requires { used + 126 ≤ length room.old }
    ensures { (result, room.new) ≡ turn_of room.old used (step_answer file.now replay) }
{
    let stepped = replay.step(file);
    let next = stepped.replay;
    match stepped.told.ok().flatten() {
        Some(line) => Filled {
            used: line.put_text(room, used),
            ended: false,
            replay: next,
        },
        None => Filled {
            used,
            ended: true,
            replay: next,
        },
    }
}

impl Replay {
    // Fills the room from its start with the lines of the next events, as many as it holds.
    pub fn fill(self, file: &[u8], room: &mut [u8]) -> Filled
        ensures { (result, room.new) ≡ fill_answer file.now self room.old }
    {
        let mut page = Filled {
            used: 0,
            ended: false,
            replay: self,
        };
        for _turn in 0..room.len() {
            if page.ended || !has_room(room.len(), page.used) {
                return page;
            }
            page = turn(page.replay, file, room, page.used);
        }
        page
    }
}

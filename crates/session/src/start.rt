// The start of a replay: the file is checked once.
ghost use Rattle.std.specs.Prelude.{◌≡◌};
ghost use Rattle.session.specs.Replay.{verdict_of, start_told, started, start_answer, no_replay};

use crate::check::check;
use crate::line::Bad;
use crate::replay::{Replay, Started};
use crate::settings::{read_settings, setting};
use congestion::settings::Settings;
use sent::state::SentPackets;
use seq::SeqNum;

// What is answered: 20 where the file is no session, then 10 where a setting is out of range.
fn verdict(is_session: bool, in_range: bool) -> Result<(), Bad>
    ensures { start_told result ≡ verdict_of is_session in_range }
{
    if is_session & !in_range {
        return Err(Bad::BadSetting);
    }
    if !is_session {
        return Err(Bad::BadSession);
    }
    Ok(())
}

// No event, and a tracker that is not sound.
// (No Option: `start_answer` says what a refused start hands back.)
fn none() -> Replay
    ensures { result ≡ no_replay }
{
    let settings = Settings {
        target_delay: 0,
        first_timeout: 0,
        minimum_timeout: 0,
        largest_packet: 0,
        increase: 0,
        gain: 0.0,
        delay_window: 0,
    };
    Replay {
        index: 0,
        count: 0,
        sack_at: 0,
        state: SentPackets::new(SeqNum(0), settings).state,
    }
}

impl Replay {
    // A replay of the file before its first event. Refused with 20 where the file is no session,
    // then with 10 where a setting is out of range; what is then handed back has no sound tracker.
    pub fn start(file: &[u8]) -> Started
        ensures { started result ≡ start_answer file.now }
    {
        let Some(layout) = check(file) else {
            // Asked of any file: `verdict` alone says which of the two comes first.
            let in_range = 68 <= file.len() && read_settings(file).in_range();
            return Started {
                answer: verdict(false, in_range),
                replay: none(),
            };
        };
        let settings = read_settings(file);
        let initial = SeqNum(setting(file, 0) as u16);
        let replay = Replay {
            index: 0,
            count: layout.count,
            sack_at: layout.sack_at,
            state: SentPackets::new(initial, settings).state,
        };
        Started {
            answer: verdict(true, settings.in_range()),
            replay,
        }
    }
}

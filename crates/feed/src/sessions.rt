// Recorded sessions (oracle/README.md): settings, the answer to them, a count of events, the
// events.

ghost use Rattle.std.specs.Prelude.{◌≡◌, [], Some};

use crate::Feed;
use congestion::settings::Settings;
use std::io::BufRead;
use std::num::f64_from_bits_with_nan;

// The widths of the eight settings, the answer and the count of events.
const WIDTHS: [u8; 10] = [8, 8, 8, 8, 8, 8, 8, 8, 1, 4];

// What a session begins with. The answer is the one that is expected to the settings.
#[derive(Clone, Copy)]
pub struct Head {
    pub initial: u16,
    pub settings: Settings,
    pub answer: u64,
    pub events: u32,
}

// No kind of event has this number.
#[derive(Clone, Copy)]
pub struct UnknownKind;

// What sessions are replayed on. The state between two events is handed in and handed back.
pub trait Replayed {
    type State;

    // The state at the start of a session, and the number of its answer to the settings.
    fn start(&self, head: &Head) -> (Self::State, u64);

    // Counts a session, with the answer that is expected to its settings.
    fn count(&mut self, answer: u64, is_same: bool);

    // Takes the event at an index of its session, and counts it.
    fn event<R: BufRead + Drop>(
        &mut self,
        state: Self::State,
        index: u32,
        feed: &mut Feed<R>,
    ) -> Self::State;

    // The state at the end of a session.
    fn end(&mut self, state: Self::State);
}

impl Head {
    fn take<R: BufRead + Drop>(feed: &mut Feed<R>) -> Self {
        let [
            initial,
            target_delay,
            first_timeout,
            minimum_timeout,
            largest_packet,
            increase,
            gain,
            delay_window,
            answer,
            events,
        ] = feed.numbers(WIDTHS);
        Self {
            initial: (initial & 0xffff) as u16,
            settings: Settings {
                target_delay,
                first_timeout,
                minimum_timeout,
                largest_packet,
                increase,
                gain: f64_from_bits_with_nan(gain),
                delay_window,
            },
            answer,
            events: (events & 0xffff_ffff) as u32,
        }
    }
}

// Replays a session.
fn replay_one<R: BufRead + Drop, M: Replayed>(feed: &mut Feed<R>, on: &mut M) {
    let head = Head::take(feed);
    let (start, answer) = on.start(&head);
    on.count(head.answer, answer == head.answer && !feed.is_short);
    let mut state = start;
    for index in 0..head.events {
        state = on.event(state, index, feed);
    }
    on.end(state);
}

// Replays session after session: of a list known to be empty, none. A proved loop has to end, and
// nothing says that a list does: it ends after as many sessions as no list has.
pub fn replay<R: BufRead + Drop, M: Replayed>(source: R, on: &mut M)
    ensures none { R.remaining source ≡ Some [] → on.new ≡ on.old }
{
    let mut feed = Feed::new(source);
    for _ in 0..u64::MAX {
        if !feed.has_more() {
            return;
        }
        replay_one(&mut feed, on);
    }
}

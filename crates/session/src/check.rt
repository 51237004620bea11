// The whole of a file, checked before the first event.
ghost use Rattle.std.specs.Prelude.{◌+◌, ◌*◌, ◌≤◌, ◌≡◌, length, drop};
ghost use Rattle.session.specs.Format.{events_of, field_at};
ghost use Rattle.session.specs.Check.{checked, check_of, known_total};

use crate::event::{Event, read_event};
use crate::number::bytes_at;
use crate::settings::setting;

// Where the events and the SACK bytes of a file are: `count` events from the place EVENTS on, and
// the SACK bytes from `sack_at` to the end.
// (A place and no slice: the file is lent to each call, and a replay is a plain value.)
#[derive(Clone, Copy)]
pub(crate) struct Layout {
    pub count: u32,
    pub sack_at: usize,
}

// The place of the first event: behind the settings and both counts.
pub(crate) const EVENTS: usize = 72;

// A section's count, which stands before its items.
fn count_at(file: &[u8], at: usize) -> u32
    requires { at + 4 ≤ length file.now }
    ensures { result ≡ field_at file.now at 4 }
{
    u32::from_be_bytes(bytes_at(file, at))
}

// How many SACK bytes the acks have in all, where each of the events is known.
fn walked(file: &[u8], count: usize) -> Option<u64>
    requires { (72 + 24 * count ≤ length file.now) × (count ≤ 4294967295) }
    ensures { result ≡ known_total (events_of count (drop 72 file.now)) }
{
    let mut total: u64 = 0;
    for i in 0..count {
        let event = read_event(file, EVENTS + Event::SIZE * i);
        if !event.is_known() {
            return None;
        }
        total += u64::from(event.sack_size());
    }
    Some(total)
}

// Where they are, if the file is a session (else 20): three sections that fill the file, the
// settings' count, the initial number, each event and the sum of the SACK byte counts.
pub(crate) fn check(file: &[u8]) -> Option<Layout>
    ensures { checked result ≡ check_of file.now }
{
    if file.len() < EVENTS {
        return None;
    }
    if count_at(file, 0) != 8 {
        return None;
    }
    if 65535 < setting(file, 0) {
        return None;
    }
    let count = count_at(file, 68);
    let end = EVENTS + Event::SIZE * (count as usize);
    if file.len() < end + 4 {
        return None;
    }
    let sack = count_at(file, end);
    if file.len() - (end + 4) != sack as usize {
        return None;
    }
    let total = walked(file, count as usize)?;
    if total != u64::from(sack) {
        return None;
    }
    Some(Layout {
        count,
        sack_at: end + 4,
    })
}

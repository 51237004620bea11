// Round trip, variance and timeout, as BEP 29 moves them.
ghost use Rattle.std.specs.Prelude.{◌≡◌, ◌<◌};
ghost use Rattle.congestion.specs.Trip.{moved_of, trip_of, variance_of};

// `old` moved toward `to` by a part of the way, one of `share`, truncated toward zero. A part of
// the way down is never more than `old`.
// (Two arms: no i64 holds every difference of two u64s.)
#[tactic(auto, using(crate::specs::Laws::Trip::moved_up, crate::specs::Laws::Trip::moved_down))]
fn moved(old: u64, to: u64, share: u64) -> u64
    requires { 0 < share }
    ensures { result ≡ moved_of share old to }
{
    if old <= to {
        old + (to - old) / share
    } else {
        old - (old - to) / share
    }
}

// The round trip after a packet's own: an eighth of the way to it.
pub(crate) fn next_trip(old: u64, packet: u64) -> u64
    ensures { result ≡ trip_of old packet }
{
    moved(old, packet, 8)
}

// The variance after it, by the old round trip: a quarter of the way to how far the two lie apart.
pub(crate) fn next_variance(trip: u64, old: u64, packet: u64) -> u64
    ensures { result ≡ variance_of trip old packet }
{
    moved(old, trip.abs_diff(packet), 4)
}

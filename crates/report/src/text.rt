// The front of a buffer that is filled in part.
ghost use Rattle.std.specs.Prelude.{◌≡◌, take};

use std::io::Result;

// The first so many bytes of a slice, or all of it where it has fewer.
pub fn front(s: &[u8], count: usize) -> &[u8]
    ensures { result.now ≡ take count s.now }
{
    &s[..count.min(s.len())]
}

// Prints the first so many bytes of the buffer, or fails where they were not all written.
// (A place in lent room, as `session` fills it: the port has no heap.)
pub fn print(rt: &impl Print, room: &[u8], used: usize) -> Result<()> {
    rt.write_all(front(room, used))
}

// A place of a kept packet.
ghost use Rattle.std.specs.Prelude.{◌<◌};

// One of the 512 places where packets may be kept, from 0. That it is one of them is known of its
// type, so that nothing is tested where a packet is read.
#[derive(Clone, Copy)]
pub struct Place {
    pub at: usize,
    ghost in_range: { at < 512 },
}

// The payload of an offset: its length and its bytes are functions of the offset, so that none is
// kept.
ghost use Rattle.std.specs.Prelude.{◌<◌};

// From 0 to 119 bytes. No two payloads in a row are empty.
pub(crate) fn size_of(offset: u32) -> usize
    ensures { result < 120 }
{
    (offset as usize * 37) % 120
}

// A byte of a payload, by its offset and its place.
fn byte_of(offset: u32, at: usize) -> u8 {
    ((offset as usize * 7 + (at % 256) * 13) % 256) as u8
}

// Writes the payload of an offset.
pub(crate) fn fill(out: &mut [u8], offset: u32) {
    for (at, byte) in out.iter_mut().enumerate() {
        *byte = byte_of(offset, at);
    }
}

// The bytes of all payloads from offset 1 on, one after the other: the next is byte `at` of the
// payload of `offset`.
#[derive(Drop)]
pub(crate) struct Bytes {
    offset: u32,
    at: usize,
}

impl Bytes {
    pub(crate) fn new() -> Self {
        Self { offset: 1, at: 0 }
    }

    // Past a payload that has been read whole.
    // (Like voyage's, and so is `next`: a crate for two programs' draws would be longer.)
    fn skip(&mut self) {
        if self.at >= size_of(self.offset) {
            self.offset = self.offset.wrapping_add(1);
            self.at = 0;
        }
    }
}

impl Iterator for Bytes {
    type Item = u8;

    fn next(&mut self) -> Option<u8> {
        self.skip();
        self.skip();
        let byte = byte_of(self.offset, self.at);
        self.at = self.at.wrapping_add(1);
        Some(byte)
    }
}

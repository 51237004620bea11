// Reading a list of records. Numbers in a list are big-endian.

#![tactic(auto)]

ghost use Rattle.std.specs.Prelude.{◌≡◌, ◌+◌, ◌*◌, ◌%◌, [], false, None, Some};
ghost use Rattle.feed.specs.Feed.{read_error, read_from};

use std::io::{BufRead, Error};

pub mod sessions;

// What the source still has.
#[derive(Drop)]
enum Rest {
    // Maybe some bytes.
    More,
    Nothing,
    // Nothing that can be read.
    Failed(Error),
}

// A list, and where the reading stands. `is_short`: more was asked for than there was, and zeros
// were given for it. No Option in place of the zeros: a cut record counts under the answer that
// they make.
#[derive(Drop)]
pub struct Feed<R> {
    source: R,
    rest: Rest,
    pub is_short: bool,
}

// A number, with one more byte behind its last seven.
// (No `from_be_bytes`: a list names its widths, and of more than eight bytes the last eight count.)
pub fn appended(value: u64, byte: u8) -> u64
    ensures { result ≡ value % 72057594037927936 * 256 + byte }
{
    value % 72057594037927936 * 256 + u64::from(byte)
}

impl<R: BufRead + Drop> Feed<R> {
    pub fn new(source: R) -> Self
        ensures source { read_from result ≡ source }
        ensures unread { read_error result ≡ None }
    {
        Self {
            source,
            rest: Rest::More,
            is_short: false,
        }
    }

    // The next byte, if one is left. It is not taken.
    fn peek(&mut self) -> Option<u8>
        ensures end { R.remaining (read_from self.old) ≡ Some [] → result ≡ None }
    {
        if !matches!(self.rest, Rest::More) {
            return None;
        }
        match self.source.fill_buf() {
            Ok(bytes) => {
                let next = bytes.first().copied();
                if next.is_none() {
                    self.rest = Rest::Nothing;
                }
                next
            }
            Err(error) => {
                self.rest = Rest::Failed(error);
                None
            }
        }
    }

    // Is a byte left?
    pub fn has_more(&mut self) -> bool
        ensures end { R.remaining (read_from self.old) ≡ Some [] → result ≡ false }
    {
        self.peek().is_some()
    }

    // Takes one byte.
    pub fn byte(&mut self) -> u8 {
        match self.peek() {
            Some(byte) => {
                self.source.consume(1);
                byte
            }
            None => {
                self.is_short = true;
                0
            }
        }
    }

    // Takes a number of so many bytes; of more than eight the last eight count.
    pub fn number(&mut self, width: usize) -> u64 {
        let mut value = 0;
        for _ in 0..width {
            value = appended(value, self.byte());
        }
        value
    }

    // Takes a number of each of these widths. An array of widths and no slice: the result has as
    // many numbers.
    pub fn numbers<const N: usize>(&mut self, widths: [u8; N]) -> [u64; N] {
        let mut numbers = [0; N];
        for (number, width) in numbers.iter_mut().zip(&widths) {
            *number = self.number(usize::from(*width));
        }
        numbers
    }

    // Takes as many bytes as `out` has.
    pub fn bytes(&mut self, out: &mut [u8]) {
        for byte in out {
            *byte = self.byte();
        }
    }

    // Why a read failed, if one did.
    pub fn failed(self) -> Option<Error>
        ensures { result ≡ read_error self }
    {
        match self.rest {
            Rest::Failed(error) => Some(error),
            Rest::More | Rest::Nothing => None,
        }
    }
}

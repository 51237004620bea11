// What a program reads: the path that it is given, and a list that has its name.
ghost use Rattle.std.specs.Prelude.{◌≡◌, ◌≤◌, [], length, IfErr, IfOk, IfSome};
ghost use Rattle.std.specs.declared.io.ErrorKind.TheVariants.{OutOfMemory};
ghost use Rattle.std.specs.Io.Buffered.{reader_buffer};
ghost use Rattle.std.specs.IoError.{error_kind};

use crate::failure::fail;
use std::env::{Env, FillError};
use std::fs;
use std::io::{BufReader, Error, ErrorKind, Result};
use std::rt::Files;
use std::str::from_utf8;

// The system's number of the error that a name is too long.
const NAME_TOO_LONG: i32 = 36;

// The longest path that is read.
pub const LONGEST_PATH: usize = 4096;

// The first argument, or `None` where there is none. Fails at one that is not UTF-8, or that the
// room does not hold: std's `args` would read one of any length, and what is said of it would be
// another thing.
pub fn path<'a>(rt: &impl Env, room: &'a mut [u8]) -> Result<Option<&'a str>>
    ensures fits { IfOk result (λ found. IfSome found (λ path. length path.now ≤ length room.old)) }
{
    match rt.arg(1, room) {
        Ok(length) => match from_utf8(&room[..length]) {
            Ok(path) => Ok(Some(path)),
            Err(_) => Err(Error::from(ErrorKind::InvalidFilename)),
        },
        Err(FillError::TooLong) => Err(Error::from_raw_os_error(NAME_TOO_LONG)),
        Err(FillError::NotPresent) => Ok(None),
    }
}

// The list of a name, or `None` for one that cannot be opened, which it says. Fails where there is
// no memory to read it.
pub fn list<R: Files + Eprint + AllocGlobal>(
    rt: &R,
    name: &str,
) -> Result<Option<BufReader<R::File>>>
    ensures unread { IfOk result (λ found. IfSome found (λ list. reader_buffer list ≡ [])) }
    ensures no_memory { IfErr result (λ e. error_kind e ≡ ErrorKind.OutOfMemory) }
{
    match fs::open(rt, name) {
        Ok(file) => Ok(Some(BufReader::new(rt.alloc(), file)?)),
        Err(error) => {
            fail(rt, name, &error);
            Ok(None)
        }
    }
}

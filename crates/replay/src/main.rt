// Replays a recorded sender session, of standard input or of the file that the first argument
// names, and prints what the tracker does: a line for each event, or one line `bad` for a file that
// is refused. What is printed is the library's; here stand the reading and the writing.

#![tactic(auto)]

ghost use Rattle.std.specs.Prelude.{◌≤◌, IfOk, length};

use report::failure::failed;
use report::input::{LONGEST_PATH, path};
use report::text::print;
use session::line::Bad;
use session::replay::Replay;
use std::alloc::Global;
use std::fs;
use std::io::{ErrorKind, Read, Result};
use std::process::ExitCode;

// ---- reading

// The longest session that is held: 4 MiB.
const MOST: usize = 4194304;

// Is there a byte more than what was read?
fn has_more(source: &mut impl Read) -> bool {
    let mut one = [0];
    matches!(source.read(&mut one), Ok(count) if count > 0)
}

// One read. A read that a signal interrupts is tried again.
fn read_on(source: &mut impl Read, room: &mut [u8]) -> Result<usize>
    ensures { IfOk result (λ count. count ≤ length room.old) }
{
    for _ in 0..u64::MAX {
        match source.read(room) {
            Ok(count) => return Ok(count),
            Err(error) => {
                if error.kind() != ErrorKind::Interrupted {
                    return Err(error);
                }
            }
        }
    }
    Ok(0)
}

// Reads until the input ends or the room is full, and answers how many bytes there are. Each read is
// offered all the room that is left, so that of a source which hands out packets no byte is lost.
fn read_all(source: &mut impl Read, file: &mut [u8]) -> Result<usize>
    ensures { IfOk result (λ count. count ≤ length file.old) }
{
    let mut count = 0;
    while count < file.len() {
        let more = read_on(source, &mut file[count..])?;
        if more == 0 {
            break;
        }
        count += more;
    }
    Ok(count)
}

// Reads a session, into room for the longest. `None` for an input that is longer.
fn read_session(alloc: Global, source: &mut impl Read) -> Result<Option<Vec<u8>>> {
    let mut file = vec![in alloc; 0; MOST]?;
    let length = read_all(source, &mut file)?;
    if length == MOST && has_more(source) {
        return Ok(None);
    }
    file.truncate(length);
    Ok(Some(file))
}

// ---- printing

// Fills the room and prints it, until no event is left. No session has as many events as there may
// be turns.
fn print_lines(rt: &impl Print, start: Replay, file: &[u8], room: &mut [u8]) -> Result<()> {
    let mut replay = start;
    for _ in 0..1u64 << 32 {
        let page = replay.fill(file, room);
        print(rt, room, page.used)?;
        if page.ended {
            break;
        }
        replay = page.replay;
    }
    Ok(())
}

fn print_bad(rt: &impl Print, bad: Bad, room: &mut [u8]) -> Result<()> {
    match bad.put(room, 0) {
        Ok(used) => print(rt, room, used),
        Err(_) => Ok(()),
    }
}

// Replays what was read. Fails where not all was written.
fn replay(rt: &impl Print, file: &[u8]) -> Result<()> {
    let mut room = [0; 65536];
    let started = Replay::start(file);
    match started.answer {
        Ok(()) => print_lines(rt, started.replay, file, &mut room),
        Err(bad) => print_bad(rt, bad, &mut room),
    }
}

// Says that the session is larger than what is held. The status is 1.
fn too_large(rt: &impl Eprint, name: &str) -> ExitCode {
    let _ = eprintln!(rt;
        "{name}: larger than 4194304 bytes, which is the most that a session may have here"
    );
    ExitCode::FAILURE
}

// Replays what the source gives, and says what failed. Like inspect's `inspect_from`: one function
// for both would ask of its callers that it may call what they hand in.
fn replay_from(
    rt: &(impl Print + Eprint + AllocGlobal),
    source: Result<impl Read + Drop>,
    name: &str,
) -> ExitCode {
    match source.and_then(|mut source| read_session(rt.alloc(), &mut source)) {
        Ok(Some(file)) => match replay(rt, &file) {
            Ok(()) => ExitCode::SUCCESS,
            Err(error) => failed(rt, "write", &error),
        },
        Ok(None) => too_large(rt, name),
        Err(error) => failed(rt, name, &error),
    }
}

fn main(rt: HostRuntime) -> ExitCode {
    let mut room = [0; LONGEST_PATH];
    match path(&rt, &mut room) {
        Ok(Some(name)) => replay_from(&rt, fs::open(&rt, name), name),
        Ok(None) => replay_from(&rt, Ok(rt.stdin()), "standard input"),
        Err(error) => failed(&rt, "path", &error),
    }
}

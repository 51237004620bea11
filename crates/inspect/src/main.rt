// Shows the datagrams of a flat file, one to a line: of standard input, or of the file that the
// first argument names. Each is a 2-byte big-endian length and then that many bytes. Bytes left
// over that make no whole datagram give a last line `cut`.

#![tactic(auto)]

use feed::Feed;
use lines::datagram::{LONGEST, Line};
use report::failure::failed;
use report::input::{LONGEST_PATH, path};
use std::io::{BufRead, BufReader, BufWriter, Read, Result, Write};
use std::process::ExitCode;
use std::{fs, io};

// How much is read, and how much is written, at a time.
const ROOM: usize = 65536;

// Takes datagram after datagram, and writes the line of each. What is written at a time are whole
// lines: where one more may not fit, those before it are written first. A proved loop has to end, and
// nothing says that a file does: it ends at an index that no run reaches.
fn inspect_all<R: BufRead + Drop, W: Write + Drop>(
    feed: &mut Feed<R>,
    out: &mut BufWriter<W>,
) -> Result<()> {
    let mut room = [0; 65536];
    for index in 0..u64::MAX {
        if !feed.has_more() {
            break;
        }
        if out.capacity().saturating_sub(out.buffer().len()) < LONGEST {
            out.flush()?;
        }
        let size = (feed.number(2) & 0xffff) as usize;
        feed.bytes(&mut room[..size]);
        if feed.is_short {
            writeln!(out, "cut")?;
            break;
        }
        let line = Line {
            index,
            datagram: &room[..size],
        };
        writeln!(out, "{line}")?;
    }
    out.flush()
}

// Inspects what is read, and answers the status. Fails where there is no memory for it.
fn inspect(
    rt: &(impl Print + Eprint + AllocGlobal),
    source: impl Read + Drop,
    name: &str,
) -> Result<ExitCode> {
    let mut feed = Feed::new(BufReader::with_capacity(rt.alloc(), ROOM, source)?);
    let mut out = BufWriter::with_capacity(rt.alloc(), ROOM, io::writer(rt))?;
    let written = inspect_all(&mut feed, &mut out);
    // What a failure left unwritten is dropped here, and not tried again.
    let _ = out.into_parts();
    let mut status = ExitCode::SUCCESS;
    if let Err(error) = written {
        status = failed(rt, "write", &error);
    }
    if let Some(error) = feed.failed() {
        status = failed(rt, name, &error);
    }
    Ok(status)
}

// Inspects what the source gives, and says what failed. Like replay's `replay_from`: one function
// for both would ask of its callers that it may call what they hand in.
fn inspect_from(
    rt: &(impl Print + Eprint + AllocGlobal),
    source: Result<impl Read + Drop>,
    name: &str,
) -> ExitCode {
    match source.and_then(|source| inspect(rt, source, name)) {
        Ok(status) => status,
        Err(error) => failed(rt, name, &error),
    }
}

fn main(rt: HostRuntime) -> ExitCode {
    let mut room = [0; LONGEST_PATH];
    match path(&rt, &mut room) {
        Ok(Some(name)) => inspect_from(&rt, fs::open(&rt, name), name),
        Ok(None) => inspect_from(&rt, Ok(rt.stdin()), "standard input"),
        Err(error) => failed(&rt, "path", &error),
    }
}

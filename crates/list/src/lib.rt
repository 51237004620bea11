// A list of records that is held whole: its numbers and bytes by their places. Numbers in a list
// are big-endian. What is past the end of a list reads as 0, so a record that is cut must be told
// by its length.

#![tactic(auto)]

use feed::appended;
use report::failure::fail;
use report::text::front;
use std::fs;
use std::io::{Error, Read};
use std::rt::Files;

// One byte more than the longest list that is held.
const ROOM: usize = 1048576;

// Reads a list. Says so of one that cannot be opened, for which there is no memory, or that is
// longer than is held; it is empty then. Where a read fails, the list ends.
pub fn read(rt: &(impl Files + Eprint + AllocGlobal), name: &str) -> Vec<u8> {
    let mut list = Vec::new(rt.alloc());
    if let Err(error) = list.reserve(ROOM) {
        fail(rt, name, &Error::from(error));
        return list;
    }
    match fs::open(rt, name) {
        Ok(file) => {
            let _ = file.take(ROOM as u64).read_to_end(&mut list);
        }
        Err(error) => fail(rt, name, &error),
    }
    if list.len() == ROOM {
        let _ = eprintln!(rt; "{name}: larger than 1048575 bytes, which is the most of a list");
        list.clear();
    }
    list
}

// What stands from a place on.
pub fn behind(list: &[u8], at: usize) -> &[u8] {
    &list[at.min(list.len())..]
}

fn byte(list: &[u8], at: usize) -> u8 {
    list.get(at).copied().unwrap_or(0)
}

// The number of so many bytes at a place; of more than eight the last eight count.
// (Not `Feed::number`: this reads past the end, as 0, and takes nothing. Its widths are a list's.)
pub fn number(list: &[u8], at: usize, width: usize) -> u64 {
    (0..width).fold(
        0,
        |value, i| appended(value, byte(list, at.wrapping_add(i))),
    )
}

// (`two` and `four` say a width and the type that goes with it in one word.)
// The number of two bytes at a place.
pub fn two(list: &[u8], at: usize) -> u16 {
    (number(list, at, 2) & 0xffff) as u16
}

// The number of four bytes at a place.
pub fn four(list: &[u8], at: usize) -> u32 {
    (number(list, at, 4) & 0xffff_ffff) as u32
}

// A part of a record: a 2-byte length and that many bytes.
pub fn part(record: &[u8]) -> &[u8] {
    front(behind(record, 2), usize::from(two(record, 0)))
}

// What stands behind such a part.
pub fn behind_part(record: &[u8]) -> &[u8] {
    behind(record, 2 + usize::from(two(record, 0)))
}

// What stands in a byte of lent room before the call, so that every byte that must stay as it was
// can be told.
fn pattern(at: usize) -> u8 {
    (at % 251) as u8
}

// Fills lent room with the pattern.
// (recv_run and voyage fill theirs so, too: three lines, each by another byte.)
pub fn fill(room: &mut [u8]) {
    for (at, byte) in room.iter_mut().enumerate() {
        *byte = pattern(at);
    }
}

// Does the room hold these bytes, and behind them what it was filled with?
pub fn holds(room: &[u8], told: &[u8]) -> bool {
    room.starts_with(told)
        && room
            .iter()
            .enumerate()
            .skip(told.len())
            .all(|(at, byte)| *byte == pattern(at))
}

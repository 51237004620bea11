// Cases at the edges that the lists lack or do not single out.
use crate::encode_list::compared;
use crate::records::counted;
use packet::decode::{Decoded, Packet};
use packet::extension::Part;
use packet::sack::{bit_count, check, is_set, meant};
use report::tally::Tally;
use report::text::front;
use seq::SeqNum;

// The answer's number. The cases expect numbers and not reasons, as the recorded lists do.
fn decoded(datagram: &[u8]) -> u64 {
    match Packet::decode(datagram) {
        Decoded::Accepted(_) => 0,
        Decoded::Undecoded(reason) => reason.number() as u64,
    }
}

// The first so many bytes of a datagram, and the answer to them, for each of these.
fn cut_all(mut tally: Tally, datagram: &[u8], cuts: &[(usize, u64)]) -> Tally {
    for (count, answer) in cuts {
        let found = decoded(front(datagram, *count));
        tally = tally.counted(*answer, found == *answer);
    }
    tally
}

// A State header that names extension 1, and a chain of extension 1 with length 0 over and over,
// whose number at the place `end` is 0.
fn chain_byte(at: usize, end: Option<usize>) -> u8 {
    match at {
        0 => 33,
        1 => 1,
        _ => u8::from(at >= 20 && at % 2 == 0 && end != Some(at)),
    }
}

fn fill_chain(datagram: &mut [u8], end: Option<usize>) {
    for (at, byte) in datagram.iter_mut().enumerate() {
        *byte = chain_byte(at, end);
    }
}

// The longest datagrams: a chain that is cut in a head, and one that ends at the end with a number
// that is not 0; then a chain whose last number is 0, so that its first SACK, of 0 bytes, is looked
// at.
fn longest(tally: Tally) -> Tally {
    let mut datagram = [0u8; 65535];
    fill_chain(&mut datagram, None);
    let open = cut_all(tally, &datagram, &[(65535, 4), (65534, 4)]);
    fill_chain(&mut datagram, Some(65532));
    cut_all(open, &datagram, &[(65534, 5), (65535, 5)])
}

// A State with extension 2 of four bytes.
const STATE: [u8; 26] =
    *b"\x21\x02\x00\x07\x00\x00\x00\x01\x00\x00\x00\x02\x00\x00\x00\x03\x00\x05\x00\x04\
    \x00\x04\x09\x09\x09\x09";

// Short datagrams: none, one byte too few for a header, a chain that is one byte short in its body
// and in its head, and the same whole.
fn short(tally: Tally) -> Tally {
    let cuts = [(0, 1), (19, 1), (20, 4), (21, 4), (22, 4), (25, 4), (26, 0)];
    cut_all(tally, &STATE, &cuts)
}

// A record of encode.bin: a State of 20 bytes, with room, answer and count still to be set.
const RECORD: [u8; 53] =
    *b"\x02\x00\x01\x00\x00\x00\x02\x00\x00\x00\x03\x00\x00\x00\x04\x00\x05\x00\x06\x00\x00\x00\x00\
    \x00\x00\x00\x00\x00\x02\x00\x00\x00\x00\
    \x21\x00\x00\x01\x00\x00\x00\x02\x00\x00\x00\x03\x00\x00\x00\x04\x00\x05\x00\x06";

// The State written into room of a size: the answer, what is written, and whether all past it, or
// on a refusal the whole room, is as it was.
fn rooms(mut tally: Tally) -> Tally {
    for (room, answer, count) in [(0, 9, 0), (1, 9, 0), (19, 9, 0), (20, 0, 20), (64, 0, 20)] {
        let mut record = RECORD;
        record[26] = room;
        record[27] = answer;
        record[32] = count;
        let mut buffer = [0u8; 64];
        tally = counted(tally, &record, compared(&record, &mut buffer));
    }
    tally
}

// Parts within a datagram of 21 bytes, at its end, and beyond it: place, length, and how many bytes
// are handed out.
const PARTS: [(usize, usize, usize); 9] = [
    (0, 21, 21),
    (20, 1, 1),
    (21, 0, 0),
    (21, 1, 0),
    (20, 2, 0),
    (22, 0, 0),
    (usize::MAX, 1, 0),
    (1, usize::MAX, 0),
    (usize::MAX, usize::MAX, 0),
];

fn parts(mut tally: Tally) -> Tally {
    for (at, len, expected) in PARTS {
        let taken = Part { at, len }.bytes(&[7; 21]);
        tally = tally.counted(0, taken.len() == expected);
    }
    tally
}

// A mask of document 01, P3.
const MASK: [u8; 4] = [5, 0, 0, 128];

// Its bits, and those around and beyond them.
const BITS: [(usize, bool); 6] = [
    (1, false),
    (2, true),
    (30, false),
    (31, true),
    (32, false),
    (usize::MAX, false),
];

// Those bits; then how many bits the first so many bytes have, and whether they have one at 0.
fn bits(mut tally: Tally) -> Tally {
    for (at, expected) in BITS {
        tally = tally.counted(0, is_set(&MASK, at) == expected);
    }
    for (len, expected) in [(0, 0), (4, 32)] {
        let mask = front(&MASK, len);
        tally = tally.counted(0, bit_count(mask) == expected);
        tally = tally.counted(0, is_set(mask, 0) == (0 < expected));
    }
    tally
}

// The numbers that bits stand for, across the wrap: ack, bit, number.
const NUMBERS: [(u16, usize, u16); 6] = [
    (5, 0, 7),
    (65534, 0, 0),
    (65535, 31, 32),
    (0, 2015, 2017),
    (9, 65536, 11),
    (0, usize::MAX, 1),
];

fn numbers(mut tally: Tally) -> Tally {
    for (ack, bit, expected) in NUMBERS {
        tally = tally.counted(0, meant(SeqNum(ack), bit).0 == expected);
    }
    tally
}

// The answer to a SACK's length.
fn checked(len: usize) -> u64 {
    match check(len) {
        Ok(_) => 0,
        Err(reason) => reason.number() as u64,
    }
}

// SACK lengths at each edge, and their answers.
const LENGTHS: [(usize, u64); 10] = [
    (0, 0),
    (1, 5),
    (3, 5),
    (4, 0),
    (5, 6),
    (252, 0),
    (253, 6),
    (256, 8),
    (260, 8),
    (usize::MAX, 6),
];

fn lengths(mut tally: Tally) -> Tally {
    for (len, answer) in LENGTHS {
        tally = tally.counted(answer, checked(len) == answer);
    }
    tally
}

pub(crate) fn all() -> Tally {
    let brief = rooms(short(longest(Tally::new())));
    lengths(numbers(bits(parts(brief))))
}

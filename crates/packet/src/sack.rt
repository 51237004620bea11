// The selective ACK: a mask of bits, the lowest of the first byte first. Bit 0 means ack + 2.
ghost use Rattle.std.specs.Prelude.{◌≡◌, ◌/◌, ◌%◌, ◌^◌, eqb};
ghost use Rattle.packet.specs.Sack.{bit_count_of, bit_of, meant_by, mask_answer, words_answer};
ghost use Rattle.packet.specs.Answers.{sack_number, checked};

use seq::SeqNum;

// What is wrong with a SACK's length: under 32 bits (5), no whole number of 32-bit words (6), above
// 252 bytes (8).
#[derive(Clone, Copy)]
pub enum SackReason {
    SackShort,
    SackNotWords,
    SackLong,
}

impl SackReason {
    // The number of the refusal. A method and no `From`: docs/PROMISES.md promises `number`.
    pub fn number(self) -> u32
        ensures { result ≡ sack_number self }
    {
        match self {
            SackReason::SackShort => 5,
            SackReason::SackNotWords => 6,
            SackReason::SackLong => 8,
        }
    }
}

// One 32-bit word or more, and no part of one: else 5, 6.
pub(crate) fn whole_words(len: usize) -> Result<usize, SackReason>
    ensures { checked result ≡ words_answer len }
{
    if len < 4 {
        return Err(SackReason::SackShort);
    }
    if len % 4 != 0 {
        return Err(SackReason::SackNotWords);
    }
    Ok(len)
}

// May a mask of so many bytes be written, or be heard in an ack? No bytes mean no SACK. Else 5, 6,
// 8.
pub fn check(len: usize) -> Result<usize, SackReason>
    ensures { checked result ≡ mask_answer len }
{
    if len == 0 {
        return Ok(len);
    }
    let len = whole_words(len)?;
    if 252 < len {
        return Err(SackReason::SackLong);
    }
    Ok(len)
}

// How many bits a mask has.
pub fn bit_count(mask: &[u8]) -> usize
    ensures { result ≡ bit_count_of mask.now }
{
    mask.len().saturating_mul(8)
}

// Is the bit set in its byte? Within a byte the order is from the lowest.
fn is_set_in(byte: u8, bit: usize) -> bool
    ensures { result ≡ eqb (byte / 2 ^ (bit % 8) % 2) 1 }
{
    (byte >> (bit % 8)) % 2 == 1
}

// Is the bit set? Past the end none is.
pub fn is_set(mask: &[u8], bit: usize) -> bool
    ensures { result ≡ bit_of mask.now bit }
{
    match mask.get(bit / 8) {
        Some(byte) => is_set_in(*byte, bit),
        None => false,
    }
}

// The number that a bit stands for.
pub fn meant(ack: SeqNum, bit: usize) -> SeqNum
    ensures { result ≡ meant_by ack bit }
{
    ack.plus(2).plus((bit % 65536) as u16)
}

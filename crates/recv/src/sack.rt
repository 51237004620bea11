// The selective ACK, built plainly, bit by bit, from the table of waiting lengths.
ghost use Rattle.std.specs.Prelude.{◌≡◌, cond, ◌+◌, ◌-◌, ◌*◌, ◌/◌, ◌≤◌, ◌<◌, length, get_or};
ghost use Rattle.seq.specs.Seq.{offset_of};
ghost use Rattle.recv.specs.Table.{waits, sack_byte_of, sack_length_of, sack_of};

use packet::sack::meant;
use seq::{Offset, SeqNum};

// How many bytes a table's selective ACK has: a bit for each place past the first, padded to 32.
pub(crate) fn length_for(table: &[u32]) -> usize
    ensures { result ≡ sack_length_of table.now }
{
    table.len().saturating_sub(1).div_ceil(32) * 4
}

// How far past the ack number a number lies, in circular order.
fn past(number: SeqNum, ack: SeqNum) -> Offset
    ensures { result ≡ offset_of number ack }
{
    number.offset_from(ack)
}

// The place in the table that bit `i` stands for, which is that of the number ack + 2 + i. Place 0
// is that of ack + 1, which never waits.
fn place_of(ack: SeqNum, i: usize) -> usize
    requires { i < 2048 }
    ensures { result ≡ i + 1 }
{
    past(meant(ack, i), ack).0 as usize - 1
}

// 1 where a payload waits at `place`, else 0.
fn bit(table: &[u32], place: usize) -> u8
    ensures { (result ≡ cond (waits (get_or table.now place 0)) 1 0) × (result ≤ 1) }
{
    table.get(place).is_some_and(|entry| *entry != 0) as u8
}

// Byte `k`, from its highest bit to its lowest.
fn byte(table: &[u32], ack: SeqNum, k: usize) -> u8
    requires { k < 256 }
    ensures { result ≡ sack_byte_of table.now k }
{
    let mut value: u8 = 0;
    for j in (0..8).rev() {
        value = 2 * value + bit(table, place_of(ack, 8 * k + j));
    }
    value
}

// Fills `room` with the selective ACK, by index: behind `iter_mut().enumerate()` no byte is known.
pub(crate) fn fill(table: &[u32], ack: SeqNum, room: &mut [u8])
    requires { (length room.old ≡ sack_length_of table.now) × (length room.old ≤ 256) }
    ensures { room.new ≡ sack_of table.now }
{
    for k in 0..room.len() {
        room[k] = byte(table, ack, k);
    }
}

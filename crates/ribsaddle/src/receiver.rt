// The receiver behind a pointer. Its buffer is lent to every call.
ghost use Rattle.std.specs.Prelude.{◌≡◌};
ghost use Rattle.recv.specs.State.{told_of, ack_of, written_before, empty_of, table_of};
ghost use Rattle.recv.specs.Table.{bytes_in, how_many, free_of};
ghost use Rattle.recv.specs.Calls.{written_room_of, taken_room_of, taken_out_of, acked_room_of};
ghost use Rattle.ribsaddle.specs.Answer.{number_of, part_or, value_or, bit_of};
ghost use Rattle.ribsaddle.specs.Tracker.{seq_of};
ghost use Rattle.ribsaddle.specs.Receiver.{told_answer, new_of, write_of, read_of, taken_count_of, sack_answer};
ghost use Rattle.ribsaddle.specs.Parts.{whole_of, parts_of};

use crate::{number, told};
use recv::{Counts, Creation, ReceiveBuffer};
use seq::SeqNum;

// A receiver in two parts, in memory the same as `ReceiveBuffer`: its table can be lent alone.
// (Table and lengths: the C header's struct.)
#[repr(C)]
#[derive(Clone, Copy)]
pub struct Receiver {
    pub counts: Counts,
    pub waiting: [u32; 256],
}

// A receiver for payloads after `initial`, over a buffer of `length` bytes. Refuses with 10.
#[tactic(auto, unfolding(crate::specs::Receiver::new_of))]
#[unsafe(no_mangle)]
pub extern "C" fn ribsaddle_recv_new(recv: &mut ReceiveBuffer, initial: u16, length: usize) -> u32
    ensures { (result ≡ (new_of recv.old initial length).answer) × (recv.new ≡ (new_of recv.old initial length).state) }
{
    let fresh = ReceiveBuffer::new(SeqNum(initial), length);
    if let Creation::Refused(reason) = fresh.answer {
        return reason.number();
    }
    *recv = fresh.state;
    0
}

// Stores `payload` under `number`, and moves every next waiting payload to ready. A number that is
// already there changes nothing. Refuses with 19, 18, 15, 16, 17.
#[tactic(auto, unfolding(crate::specs::Receiver::write_of))]
#[unsafe(no_mangle)]
pub extern "C" fn ribsaddle_recv_write(
    recv: &mut Receiver,
    buf: &mut [u8],
    number: u16,
    payload: &[u8],
) -> u32
    ensures { let s = whole_of recv.old in let next = write_of s buf.old number payload.now in
        (result ≡ next.answer)
        × (recv.new ≡ parts_of next.state)
        × (buf.new ≡ written_room_of s buf.old (record { 0 = number }) payload.now) }
{
    let next = recv
        .counts
        .write_in(&mut recv.waiting, buf, SeqNum(number), payload);
    recv.counts = next.state;
    number::of_stored(next.answer)
}

// Reads the oldest ready bytes into `out`, as many as there are and fit, and how many to `count`.
// Refuses with 19, 18.
#[tactic(auto, unfolding(crate::specs::Receiver::read_of, crate::specs::Receiver::taken_count_of))]
#[unsafe(no_mangle)]
pub extern "C" fn ribsaddle_recv_read(
    recv: &mut Receiver,
    buf: &mut [u8],
    out: &mut [u8],
    count: &mut u64,
) -> u32
    ensures { let s = whole_of recv.old in let next = read_of s buf.old out.old in
        (result ≡ next.answer)
        × (recv.new ≡ parts_of next.state)
        × (buf.new ≡ taken_room_of s buf.old out.old)
        × (out.new ≡ taken_out_of s buf.old out.old)
        × (count.new ≡ value_or count.old (taken_count_of s buf.old out.old)) }
{
    let next = recv.counts.read_in(&recv.waiting, buf, out);
    recv.counts = next.state;
    told::tell_received(next.answer, count)
}

// Writes the selective ACK to the front of `room`, and its length to `size`: 0, which means none,
// with nothing waiting. Refuses with 19, 9.
#[tactic(auto, unfolding(crate::specs::Receiver::sack_answer))]
#[unsafe(no_mangle)]
pub extern "C" fn ribsaddle_recv_selective_ack(
    recv: &ReceiveBuffer,
    room: &mut [u8],
    size: &mut u64,
) -> u32
    ensures { let s = recv.now in let told = sack_answer s room.old in
        (result ≡ number_of told)
        × (room.new ≡ acked_room_of s room.old)
        × (size.new ≡ value_or size.old told) }
{
    told::tell_received(recv.selective_ack(room), size)
}

// C has each question under its name, so each stands here with a contract of its own.
// How many bytes more the buffer can hold. This and what follows refuse with 19.
#[unsafe(no_mangle)]
pub extern "C" fn ribsaddle_recv_available(recv: &ReceiveBuffer, value: &mut u64) -> u32
    ensures { let s = recv.now in let told = told_answer (told_of s (free_of s.length s.ready (table_of s))) in
        (result ≡ number_of told) × (value.new ≡ value_or value.old told) }
{
    told::tell_received(recv.available(), value)
}

// 1 where no byte is ready and nothing waits, else 0.
#[unsafe(no_mangle)]
pub extern "C" fn ribsaddle_recv_is_empty(recv: &ReceiveBuffer, value: &mut u64) -> u32
    ensures { let s = recv.now in let told = told_answer (told_of s (empty_of s)) in
        (result ≡ number_of told) × (value.new ≡ part_or bit_of value.old told) }
{
    told::tell_received(recv.is_empty(), value)
}

// The number before the first payload's.
#[unsafe(no_mangle)]
pub extern "C" fn ribsaddle_recv_init_seq_num(recv: &ReceiveBuffer, value: &mut u64) -> u32
    ensures { let s = recv.now in let told = told_answer (told_of s s.initial) in
        (result ≡ number_of told) × (value.new ≡ part_or seq_of value.old told) }
{
    told::tell_received(recv.init_seq_num(), value)
}

// The last number of the payloads in order.
#[unsafe(no_mangle)]
pub extern "C" fn ribsaddle_recv_ack_num(recv: &ReceiveBuffer, value: &mut u64) -> u32
    ensures { let s = recv.now in let told = told_answer (told_of s (ack_of s)) in
        (result ≡ number_of told) × (value.new ≡ part_or seq_of value.old told) }
{
    told::tell_received(recv.ack_num(), value)
}

// How many payloads are in order.
#[unsafe(no_mangle)]
pub extern "C" fn ribsaddle_recv_count(recv: &ReceiveBuffer, value: &mut u64) -> u32
    ensures { let s = recv.now in let told = told_answer (told_of s s.count) in
        (result ≡ number_of told) × (value.new ≡ value_or value.old told) }
{
    told::tell_received(recv.count(), value)
}

// How many bytes are ready.
#[unsafe(no_mangle)]
pub extern "C" fn ribsaddle_recv_ready(recv: &ReceiveBuffer, value: &mut u64) -> u32
    ensures { let s = recv.now in let told = told_answer (told_of s s.ready) in
        (result ≡ number_of told) × (value.new ≡ value_or value.old told) }
{
    told::tell_received(recv.ready(), value)
}

// How many payloads wait.
#[unsafe(no_mangle)]
pub extern "C" fn ribsaddle_recv_waiting(recv: &ReceiveBuffer, value: &mut u64) -> u32
    ensures { let s = recv.now in let told = told_answer (told_of s (how_many (table_of s))) in
        (result ≡ number_of told) × (value.new ≡ value_or value.old told) }
{
    told::tell_received(recv.waiting(), value)
}

// How many bytes wait.
#[unsafe(no_mangle)]
pub extern "C" fn ribsaddle_recv_waiting_bytes(recv: &ReceiveBuffer, value: &mut u64) -> u32
    ensures { let s = recv.now in let told = told_answer (told_of s (bytes_in (table_of s))) in
        (result ≡ number_of told) × (value.new ≡ value_or value.old told) }
{
    told::tell_received(recv.waiting_bytes(), value)
}

// 1 where the payload of `number` is already there, else 0.
#[unsafe(no_mangle)]
pub extern "C" fn ribsaddle_recv_was_written(
    recv: &ReceiveBuffer,
    number: u16,
    value: &mut u64,
) -> u32
    ensures { let s = recv.now in let told = told_answer (told_of s (written_before s (record { 0 = number }))) in
        (result ≡ number_of told) × (value.new ≡ part_or bit_of value.old told) }
{
    told::tell_received(recv.was_written(SeqNum(number)), value)
}

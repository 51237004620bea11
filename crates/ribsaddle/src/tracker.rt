// The tracker of sent packets behind a pointer, which a call works on where it lies.
ghost use Rattle.std.specs.Prelude.{◌≡◌, cond};
ghost use Rattle.sent.specs.State.{read_of};
ghost use Rattle.outgoing.specs.Read.{timeout_in, window_in, in_flight_in, maximum_in, ack_num_in, next_seq_num_in, seq_num_range_in, has_unacked_in, lost_count_in, has_lost_in};
ghost use Rattle.ribsaddle.specs.Answer.{number_of, part_or, value_or, bit_of};
ghost use Rattle.ribsaddle.specs.Tracker.{whole_of, parts_of, seq_of, start_of, end_of, lost_number_of, lost_type_of, lost_tag_of, new_of, transmit_of, ack_of, timeout_of, sound_number_of, lost_answer, started_with};

use crate::{number, told};
use congestion::settings::Settings;
use outgoing::answer::Outcome;
use packet::kind::{PacketType, TypeRead};
use sent::head::Head;
use sent_lent::columns::Columns;
use sent_lent::pairs::Pairs;
use seq::SeqNum;

// A tracker whose samples and packets are lent to its head's calls where they lie.
// (Arrays side by side: the C header's struct.)
#[repr(C)]
#[derive(Clone, Copy)]
pub struct Tracker {
    pub head: Head,
    pub samples: Pairs,
    pub packets: Columns,
}

// A tracker whose arrays hold zeros.
fn started(head: Head) -> Tracker
    ensures { result ≡ started_with head }
{
    Tracker {
        head,
        samples: Pairs { pairs: [0; 2048] },
        packets: Columns {
            times: [0; 512],
            sizes: [0; 1024],
            marks: [0; 2048],
        },
    }
}

// 0 for a state that is sound, else 19: for C, as are the numbers and loose parameters below.
fn sound_number(sound: bool) -> u32
    ensures { result ≡ cond sound 0 19 }
{
    if sound { 0 } else { 19 }
}

// A fresh tracker, whose first packet has the number after `initial`. Refuses with 10.
#[unsafe(no_mangle)]
pub extern "C" fn ribsaddle_sent_new(
    sent: &mut Tracker,
    initial: u16,
    target_delay: u64,
    first_timeout: u64,
    minimum_timeout: u64,
    largest_packet: u64,
    increase: u64,
    delay_window: u64,
    gain: f64,
) -> u32
    ensures { (result ≡ (new_of sent.old initial target_delay first_timeout minimum_timeout largest_packet increase delay_window gain).answer)
        × (sent.new ≡ (new_of sent.old initial target_delay first_timeout minimum_timeout largest_packet increase delay_window gain).state) }
{
    let settings = Settings {
        target_delay,
        first_timeout,
        minimum_timeout,
        largest_packet,
        increase,
        gain,
        delay_window,
    };
    let fresh = Head::new(SeqNum(initial), settings);
    if let Outcome::Refused(reason) = fresh.answer {
        return reason.number();
    }
    *sent = started(fresh.head);
    0
}

// A packet goes out. Refuses with 19, 2, 11, 12, and a first transmit with 15, 13, 14.
#[unsafe(no_mangle)]
pub extern "C" fn ribsaddle_sent_transmit(
    sent: &mut Tracker,
    number: u16,
    packet_type: u8,
    tag: u32,
    len: u32,
    clock: u64,
) -> u32
    ensures { let s = whole_of sent.old in let next = transmit_of s number packet_type tag len clock in
        (result ≡ next.answer) × (sent.new ≡ parts_of next.state) }
{
    let TypeRead::Known(known) = PacketType::of_number(packet_type) else {
        let sound = sent.head.sound(&sent.samples, &sent.packets);
        return if sound { 2 } else { 19 };
    };
    let next = sent.head.on_transmit(
        &sent.samples,
        &mut sent.packets,
        SeqNum(number),
        known,
        tag,
        len,
        clock,
    );
    sent.head = next.head;
    number::of_outcome(next.answer)
}

// An ack with a SACK (no bytes: none) comes in. Refuses with 19, 11, 5, 6, 8, 12.
#[unsafe(no_mangle)]
pub extern "C" fn ribsaddle_sent_ack(
    sent: &mut Tracker,
    number: u16,
    sack: &[u8],
    delay: u64,
    clock: u64,
) -> u32
    ensures { let s = whole_of sent.old in let next = ack_of s number sack.now delay clock in
        (result ≡ next.answer) × (sent.new ≡ parts_of next.state) }
{
    let next = sent.head.on_ack(
        &mut sent.samples,
        &mut sent.packets,
        SeqNum(number),
        sack,
        delay,
        clock,
    );
    sent.head = next.head;
    number::of_outcome(next.answer)
}

// A timeout event. Refuses with 19.
#[unsafe(no_mangle)]
pub extern "C" fn ribsaddle_sent_on_timeout(sent: &mut Tracker) -> u32
    ensures { (result ≡ (timeout_of (whole_of sent.old)).answer) × (sent.new ≡ parts_of (timeout_of (whole_of sent.old)).state) }
{
    let next = sent.head.on_timeout(&sent.samples, &sent.packets);
    sent.head = next.head;
    number::of_outcome(next.answer)
}

// 0 for a sound state, else 19.
#[unsafe(no_mangle)]
pub extern "C" fn ribsaddle_sent_sound(sent: &Tracker) -> u32
    ensures { result ≡ sound_number_of (whole_of sent.now) }
{
    sound_number(sent.head.sound(&sent.samples, &sent.packets))
}

// C has each question under its name, so each stands here with a contract of its own.
// The timeout. This and what follows refuse with 19.
#[unsafe(no_mangle)]
pub extern "C" fn ribsaddle_sent_timeout(sent: &Tracker, value: &mut u64) -> u32
    ensures { let s = whole_of sent.now in let told = read_of s timeout_in in
        (result ≡ number_of told) × (value.new ≡ value_or value.old told) }
{
    let told = sent.head.timeout(&sent.samples, &sent.packets);
    told::tell(told, value)
}

// How many bytes may be sent now.
#[unsafe(no_mangle)]
pub extern "C" fn ribsaddle_sent_window(sent: &Tracker, value: &mut u64) -> u32
    ensures { let s = whole_of sent.now in let told = read_of s window_in in
        (result ≡ number_of told) × (value.new ≡ value_or value.old told) }
{
    let told = sent.head.window(&sent.samples, &sent.packets);
    told::tell(told, value)
}

// The bytes in flight.
#[unsafe(no_mangle)]
pub extern "C" fn ribsaddle_sent_in_flight(sent: &Tracker, value: &mut u64) -> u32
    ensures { let s = whole_of sent.now in let told = read_of s in_flight_in in
        (result ≡ number_of told) × (value.new ≡ value_or value.old told) }
{
    let told = sent.head.in_flight(&sent.samples, &sent.packets);
    told::tell(told, value)
}

// The maximum of the window.
#[unsafe(no_mangle)]
pub extern "C" fn ribsaddle_sent_maximum(sent: &Tracker, value: &mut u64) -> u32
    ensures { let s = whole_of sent.now in let told = read_of s maximum_in in
        (result ≡ number_of told) × (value.new ≡ value_or value.old told) }
{
    let told = sent.head.maximum(&sent.samples, &sent.packets);
    told::tell(told, value)
}

// How many packets are lost.
#[unsafe(no_mangle)]
pub extern "C" fn ribsaddle_sent_lost_count(sent: &Tracker, value: &mut u64) -> u32
    ensures { let s = whole_of sent.now in let told = read_of s lost_count_in in
        (result ≡ number_of told) × (value.new ≡ value_or value.old told) }
{
    let told = sent.head.lost_count(&sent.samples, &sent.packets);
    told::tell(told, value)
}

// The last number of the acknowledged run, or 0 if none.
#[unsafe(no_mangle)]
pub extern "C" fn ribsaddle_sent_ack_num(sent: &Tracker, value: &mut u64) -> u32
    ensures { let s = whole_of sent.now in let told = read_of s ack_num_in in
        (result ≡ number_of told) × (value.new ≡ part_or seq_of value.old told) }
{
    let told = sent.head.ack_num(&sent.samples, &sent.packets);
    told::tell(told, value)
}

// The number of the next packet.
#[unsafe(no_mangle)]
pub extern "C" fn ribsaddle_sent_next_seq_num(sent: &Tracker, value: &mut u64) -> u32
    ensures { let s = whole_of sent.now in let told = read_of s next_seq_num_in in
        (result ≡ number_of told) × (value.new ≡ part_or seq_of value.old told) }
{
    let told = sent.head.next_seq_num(&sent.samples, &sent.packets);
    told::tell(told, value)
}

// 1 where a packet is not acknowledged, else 0.
#[unsafe(no_mangle)]
pub extern "C" fn ribsaddle_sent_has_unacked(sent: &Tracker, value: &mut u64) -> u32
    ensures { let s = whole_of sent.now in let told = read_of s has_unacked_in in
        (result ≡ number_of told) × (value.new ≡ part_or bit_of value.old told) }
{
    let told = sent.head.has_unacked_packets(&sent.samples, &sent.packets);
    told::tell(told, value)
}

// 1 where a packet is lost, else 0.
#[unsafe(no_mangle)]
pub extern "C" fn ribsaddle_sent_has_lost(sent: &Tracker, value: &mut u64) -> u32
    ensures { let s = whole_of sent.now in let told = read_of s has_lost_in in
        (result ≡ number_of told) × (value.new ≡ part_or bit_of value.old told) }
{
    let told = sent.head.has_lost_packets(&sent.samples, &sent.packets);
    told::tell(told, value)
}

// The numbers from the initial one to the last sent.
#[unsafe(no_mangle)]
pub extern "C" fn ribsaddle_sent_range(sent: &Tracker, start: &mut u64, end: &mut u64) -> u32
    ensures { let s = whole_of sent.now in let told = read_of s seq_num_range_in in
        (result ≡ number_of told)
        × (start.new ≡ part_or start_of start.old told)
        × (end.new ≡ part_or end_of end.old told) }
{
    let told = sent.head.seq_num_range(&sent.samples, &sent.packets);
    told::tell_range(told, start, end)
}

// The lost packet at a position, from 0, in ascending order of the number. Refuses with 19, 12.
#[tactic(auto, unfolding(crate::specs::Tracker::lost_answer))]
#[unsafe(no_mangle)]
pub extern "C" fn ribsaddle_sent_lost_at(
    sent: &Tracker,
    position: u32,
    number: &mut u64,
    packet_type: &mut u64,
    tag: &mut u64,
) -> u32
    ensures { let s = whole_of sent.now in let told = lost_answer s position in
        (result ≡ number_of told)
        × (number.new ≡ part_or lost_number_of number.old told)
        × (packet_type.new ≡ part_or lost_type_of packet_type.old told)
        × (tag.new ≡ part_or lost_tag_of tag.old told) }
{
    let told = sent.head.lost_at(&sent.samples, &sent.packets, position);
    told::tell_lost(told, number, packet_type, tag)
}

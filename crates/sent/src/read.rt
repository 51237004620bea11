// What can be read of a tracker. A state that is not sound gives 19.
ghost use Rattle.std.specs.Prelude.{◌≡◌};
ghost use Rattle.outgoing.specs.Answers.{answer_told};
ghost use Rattle.outgoing.specs.Read.{timeout_in, window_in, in_flight_in, maximum_in, ack_num_in, next_seq_num_in, seq_num_range_in, has_unacked_in};
ghost use Rattle.sent.specs.State.{read_of};
ghost use Rattle.sent.specs.Whole.{whole_of};

use crate::head::Head;
use crate::packets::Packets;
use controller::samples::Samples;
use outgoing::answer::Told;
use outgoing::told::{last_acked, told};
use seq::{CircularRangeInclusive, SeqNum};

impl Head {
    // The timeout. Refused with 19.
    pub fn timeout<S: Samples, P: Packets>(self, samples: &S, packets: &P) -> Told<u64>
        ensures { answer_told result ≡ read_of (whole_of self (S.samples samples.now) (P.packets packets.now)) timeout_in }
    {
        told(self.sound(samples, packets), self.numbers.timeout)
    }

    // How many bytes may be sent now. Refused with 19.
    pub fn window<S: Samples, P: Packets>(self, samples: &S, packets: &P) -> Told<u64>
        ensures { answer_told result ≡ read_of (whole_of self (S.samples samples.now) (P.packets packets.now)) window_in }
    {
        let free = self.numbers.free_window();
        told(self.sound(samples, packets), free as u64)
    }

    // The bytes in flight. Refused with 19.
    pub fn in_flight<S: Samples, P: Packets>(self, samples: &S, packets: &P) -> Told<u64>
        ensures { answer_told result ≡ read_of (whole_of self (S.samples samples.now) (P.packets packets.now)) in_flight_in }
    {
        told(self.sound(samples, packets), self.numbers.in_flight as u64)
    }

    // The maximum of the window. Refused with 19.
    pub fn maximum<S: Samples, P: Packets>(self, samples: &S, packets: &P) -> Told<u64>
        ensures { answer_told result ≡ read_of (whole_of self (S.samples samples.now) (P.packets packets.now)) maximum_in }
    {
        told(self.sound(samples, packets), self.numbers.maximum as u64)
    }

    // The last number of the acknowledged run, or 0 if none. Refused with 19.
    pub fn ack_num<S: Samples, P: Packets>(self, samples: &S, packets: &P) -> Told<SeqNum>
        ensures { answer_told result ≡ read_of (whole_of self (S.samples samples.now) (P.packets packets.now)) ack_num_in }
    {
        let number = last_acked(SeqNum(self.initial), self.count, self.live);
        told(self.sound(samples, packets), number)
    }

    // The number of the next packet. Refused with 19.
    pub fn next_seq_num<S: Samples, P: Packets>(self, samples: &S, packets: &P) -> Told<SeqNum>
        ensures { answer_told result ≡ read_of (whole_of self (S.samples samples.now) (P.packets packets.now)) next_seq_num_in }
    {
        let number = SeqNum(self.initial).at(self.count).plus(1);
        told(self.sound(samples, packets), number)
    }

    // The numbers from the initial one to the last sent. Refused with 19.
    pub fn seq_num_range<S: Samples, P: Packets>(
        self,
        samples: &S,
        packets: &P,
    ) -> Told<CircularRangeInclusive>
        ensures { answer_told result ≡ read_of (whole_of self (S.samples samples.now) (P.packets packets.now)) seq_num_range_in }
    {
        let start = SeqNum(self.initial);
        let range = CircularRangeInclusive::new(start, start.at(self.count));
        told(self.sound(samples, packets), range)
    }

    // Is a packet not acknowledged? Refused with 19.
    pub fn has_unacked_packets<S: Samples, P: Packets>(self, samples: &S, packets: &P) -> Told<bool>
        ensures { answer_told result ≡ read_of (whole_of self (S.samples samples.now) (P.packets packets.now)) has_unacked_in }
    {
        told(self.sound(samples, packets), self.live != 0)
    }
}

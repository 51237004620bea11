// What a run is set up with, all of it from its seed, and the payload of each offset: its length
// and its bytes are functions of the seed and the offset, so that none is kept.
use congestion::settings::Settings;
use packet::kind::PacketType;
use seq::SeqNum;

#[derive(Clone, Copy)]
pub(crate) struct Plan {
    pub seed: u64,
    // The number that both ends start from.
    pub initial: SeqNum,
    // So many packets are to be sent, with payloads of up to `most` + 1 bytes.
    pub to_send: u32,
    pub most: u16,
    // The length of the receiver's buffer, and the largest packet of the sender's tracker.
    pub length: usize,
    pub largest: u64,
    // The channel holds up to `depth` datagrams. Of 16 that it hands out it loses `losses` and
    // repeats `repeats`.
    pub depth: usize,
    pub losses: u8,
    pub repeats: u8,
    // One ack in `patience` + 1 is built, and one timeout in `calm` + 1 comes.
    pub patience: u8,
    pub calm: u8,
}

// Marsaglia's xorshift of 64 bits.
// (recv_run has it too, and `skip`: a crate for two programs' draws would be longer.)
pub(crate) fn next(seed: u64) -> u64 {
    let a = seed ^ (seed << 13);
    let b = a ^ (a >> 7);
    b ^ (b << 17)
}

// A number that stands for a payload, or for another of the many things that a seed decides. It is
// not 0, which the generator would not leave.
pub(crate) fn key(seed: u64, index: u32) -> u64 {
    let start = seed
        .wrapping_add(u64::from(index) * 2654435761)
        .wrapping_add(88172645463325252);
    next(next(next((start << 1) | 1)))
}

// A byte of the payload that a key stands for.
pub(crate) fn byte_of(key: u64, at: u64) -> u8 {
    (next(key.wrapping_add(at)) / 65536 % 256) as u8
}

// Writes the payload that a key stands for, of as many bytes as there is room for.
pub(crate) fn fill(out: &mut [u8], key: u64) {
    for (at, byte) in out.iter_mut().enumerate() {
        *byte = byte_of(key, at as u64);
    }
}

// Data needs a payload (7), so a packet without one is a Fin.
pub(crate) fn kind_of(size: usize) -> PacketType {
    if size == 0 {
        PacketType::Fin
    } else {
        PacketType::Data
    }
}

impl Plan {
    // The key of the payload of an offset.
    pub(crate) fn payload(&self, offset: u32) -> u64 {
        key(self.seed, offset)
    }

    // The length of the payload of an offset. Every eighth is empty, so no two in a row are.
    pub(crate) fn size_of(&self, offset: u32) -> usize {
        if offset % 8 == 5 {
            return 0;
        }
        (self.payload(offset) % (u64::from(self.most) + 1)) as usize + 1
    }

    // The offset of a number.
    pub(crate) fn offset_of(&self, number: SeqNum) -> u32 {
        u32::from(number.offset_from(self.initial).0)
    }

    // What the sender's tracker is set up with.
    pub(crate) fn settings(&self) -> Settings {
        let seed = self.seed;
        Settings {
            target_delay: 1000 + key(seed, 11) % 200000,
            first_timeout: 1 + key(seed, 12) % 2000000,
            minimum_timeout: 1 + key(seed, 13) % 1000000,
            largest_packet: self.largest,
            increase: 1 + key(seed, 14) % 6000,
            gain: gain_of(seed),
            delay_window: 1 + key(seed, 15) % 3000000,
        }
    }

    // The plan of a seed.
    pub(crate) fn of_seed(seed: u64) -> Self {
        // Small packets and a small buffer.
        let plan = Self {
            seed,
            initial: SeqNum(initial_of(seed)),
            to_send: (20 + key(seed, 2) % 80) as u32,
            most: 99,
            length: (200 + key(seed, 6) % 300) as usize,
            largest: 100,
            depth: depth_of(seed),
            losses: (key(seed, 3) % 6) as u8,
            repeats: (key(seed, 4) % 4) as u8,
            patience: 0,
            calm: 1,
        };
        match key(seed, 5) % 16 {
            0 => plan.crowded(),
            // Large packets.
            1..=4 => plan.sized(999, 4096, 1400),
            // Large packets and little room.
            5..=8 => plan.sized(999, 1000, 1000),
            // A large buffer.
            9..=11 => plan.sized(249, 65536, 500),
            _ => plan,
        }
    }

    // With other lengths of payloads and of the buffer, and another largest packet.
    fn sized(self, most: u16, length: usize, largest: u64) -> Self {
        Self {
            most,
            length,
            largest,
            ..self
        }
    }

    // With many small packets and few acks, where places and distances run out.
    fn crowded(self) -> Self {
        Self {
            to_send: 700,
            depth: 64,
            patience: 15,
            calm: 31,
            ..self.sized(39, 65536, 65535)
        }
    }
}

// Initial numbers: the last one, one near it, 0, and any.
fn initial_of(seed: u64) -> u16 {
    let any = key(seed, 1) % 65536;
    match seed % 4 {
        0 => 65535,
        1 => (65400 + any % 135) as u16,
        2 => 0,
        _ => any as u16,
    }
}

fn depth_of(seed: u64) -> usize {
    match seed % 3 {
        0 => 64,
        1 => 16,
        _ => 3,
    }
}

fn gain_of(seed: u64) -> f64 {
    match seed % 3 {
        0 => 1.0,
        1 => 0.5,
        _ => 0.0009765625,
    }
}

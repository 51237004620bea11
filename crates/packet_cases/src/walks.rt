// Ranges of sequence numbers: the walk upward modulo 65,536, and `contains` held against it.
use report::tally::Tally;
use seq::{CircularRangeInclusive, SeqNum, Step};

// A walk from `start` to `end` meets the right count of numbers, each one up from the last, and
// meets `item` exactly where `contains` says so.
fn is_right(start: u16, end: u16, item: u16) -> bool {
    let range = CircularRangeInclusive::new(SeqNum(start), SeqNum(end));
    let mut rest = range;
    let mut is_met = false;
    for steps in 0..=end.wrapping_sub(start) {
        let Step::Item(number, behind) = rest.next() else {
            return false;
        };
        if number.0 != start.wrapping_add(steps) {
            return false;
        }
        is_met |= number.0 == item;
        rest = behind;
    }
    matches!(rest.next(), Step::Done) && is_met == range.contains(SeqNum(item))
}

// Across the wrap, one number only, all numbers, and the items just inside and outside of each end.
const EDGES: [(u16, u16, u16); 9] = [
    (65530, 5, 65530),
    (65530, 5, 5),
    (65530, 5, 0),
    (65530, 5, 65529),
    (65530, 5, 6),
    (0, 0, 0),
    (65535, 65535, 0),
    (0, 65535, 65535),
    (7, 6, 6),
];

// A fixed sequence of numbers that looks random.
#[derive(Drop)]
struct Draws {
    seed: u64,
}

impl Draws {
    // The high half of the seed; then the seed goes on.
    fn draw(&mut self) -> u16 {
        let seed = self.seed % 4294967296;
        self.seed = (seed * 1103515245 + 12345) % 4294967296;
        (seed / 65536) as u16
    }

    // Any range and any item.
    fn is_any_right(&mut self) -> bool {
        let start = self.draw();
        let end = self.draw();
        is_right(start, end, self.draw())
    }

    // A range of up to 4,096 numbers, and an item from 2,048 before its start to 6,143 behind it.
    fn is_near_right(&mut self) -> bool {
        let start = self.draw();
        let end = start.wrapping_add(self.draw() % 4096);
        let before = start.wrapping_sub(2048);
        is_right(start, end, before.wrapping_add(self.draw() % 8192))
    }
}

pub(crate) fn all() -> Tally {
    let mut tally = Tally::new();
    for (start, end, item) in EDGES {
        tally = tally.counted(0, is_right(start, end, item));
    }
    let mut draws = Draws { seed: 662824084 };
    for i in 0..4000 {
        let is_same = if i % 50 == 0 {
            draws.is_any_right()
        } else {
            draws.is_near_right()
        };
        tally = tally.counted(0, is_same);
    }
    tally
}

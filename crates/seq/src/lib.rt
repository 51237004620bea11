// Sequence numbers and offsets, two kinds that cannot be mixed.

#![tactic(auto)]

ghost use Rattle.std.specs.Prelude.{◌≡◌};
ghost use Rattle.seq.specs.Seq.{plus_of, offset_of, range_of, contains_of, next_of};

// A number as it stands on the wire. Numbers run round modulo 65,536.
#[repr(C)]
#[derive(Clone, Copy, PartialEq, Eq)]
pub struct SeqNum(pub u16);

// How far a number lies past an initial number, modulo 65,536.
#[derive(Clone, Copy, PartialEq, Eq, PartialOrd, Ord)]
pub struct Offset(pub u16);

impl SeqNum {
    // The number `steps` further on.
    pub fn plus(self, steps: u16) -> SeqNum
        ensures { result ≡ plus_of self steps }
    {
        SeqNum(self.0.wrapping_add(steps))
    }

    // The number that lies `offset` past this one.
    pub fn at(self, offset: u32) -> SeqNum
        ensures { result ≡ plus_of self offset }
    {
        self.plus((offset % 65536) as u16)
    }

    // The offset of this number from `initial`: the one conversion between the two kinds.
    pub fn offset_from(self, initial: SeqNum) -> Offset
        ensures { result ≡ offset_of self initial }
    {
        Offset(self.0.wrapping_sub(initial.0))
    }
}

// The numbers from start up to end, both among them, upward modulo 65,536.
#[derive(Clone, Copy)]
pub struct CircularRangeInclusive {
    pub start: SeqNum,
    pub end: SeqNum,
    // A flag and no Option: `contains` reads start and end of a walk that is over, too.
    pub exhausted: bool,
}

// What a step of the walk gives: a number with what is left, or the end.
// An enum of the port's own in place of Option: document 01, "What must change shape".
#[derive(Clone, Copy)]
pub enum Step {
    Item(SeqNum, CircularRangeInclusive),
    Done,
}

impl CircularRangeInclusive {
    pub fn new(start: SeqNum, end: SeqNum) -> Self
        ensures { result ≡ range_of start end }
    {
        Self {
            start,
            end,
            exhausted: false,
        }
    }

    // Is `item` one of the numbers of a range that was just made?
    pub fn contains(self, item: SeqNum) -> bool
        ensures { result ≡ contains_of self.start self.end item }
    {
        item.offset_from(self.start) <= self.end.offset_from(self.start)
    }

    // The next number of the walk.
    pub fn next(self) -> Step
        ensures { result ≡ next_of self }
    {
        if self.exhausted {
            return Step::Done;
        }
        if self.start == self.end {
            return Step::Item(
                self.end,
                Self {
                    exhausted: true,
                    ..self
                },
            );
        }
        Step::Item(
            self.start,
            Self {
                start: self.start.plus(1),
                ..self
            },
        )
    }
}

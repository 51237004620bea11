// What a call of the controller answers, with the reason inside the refusal.
ghost use Rattle.std.specs.Prelude.{◌≡◌};
ghost use Rattle.controller.specs.Answers.{reason_number};

// Why a call is refused, each with its number.
#[derive(Clone, Copy)]
pub enum Reason {
    // A setting is out of range.
    BadSetting = 10,
    // A time or a delay is above 2^50, or now is below an accepted one.
    BadTime = 11,
    // No packet of that length is in flight.
    NotSent = 12,
    // A first transmit is longer than the free window.
    NoWindow = 13,
    // The state is not sound.
    NotSound = 19,
}

impl Reason {
    // The number of the refusal. A method and no `From`: docs/PROMISES.md promises `number`.
    pub fn number(self) -> u32
        ensures { result ≡ reason_number self }
    {
        self as u32
    }
}

// An enum of the port's own in place of Result: document 01, "What must change shape".
#[derive(Clone, Copy)]
pub enum Answer {
    // 0: done.
    Done,
    Refused(Reason),
}

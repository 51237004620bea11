// What is printed: the line of an event, or the one line of a refused file.
ghost use Rattle.std.specs.Prelude.{ℕ, List, ◌+◌, ◌≤◌, ◌≡◌, length, ◌++◌, ◌∷◌, [], leb};
ghost use Rattle.common.specs.Laws.Put.{put};
ghost use Rattle.session.specs.Lines.{decimal, line_text, bad_text};
ghost use Rattle.session.specs.Answers.{written, wrote_of, pair_text, bad_number};

// An event's index, the number of the answer as it is printed, 0 for done, and what the tracker
// then shows.
#[derive(Clone, Copy)]
pub struct Line {
    pub index: u64,
    pub answer: u64,
    pub in_flight: u64,
    pub maximum: u64,
    pub timeout: u64,
    pub lost: u64,
}

// Why a file is refused: it is no session (20), or a setting is out of range (10).
#[derive(Clone, Copy)]
pub enum Bad {
    BadSession,
    BadSetting,
}

// There is too little room for a line (9).
#[derive(Clone, Copy)]
pub struct NoRoom;

// Writes a number's decimal digits from a place on, and answers the place behind them. Not by
// Display: no clause of std says that a write into a room that is large enough succeeds, and this
// may not fail.
fn put_decimal(room: &mut [u8], at: usize, n: u64) -> usize
    requires { at + length (decimal n) ≤ length room.old }
    ensures { (result ≡ at + length (decimal n)) × (room.new ≡ put room.old at (decimal n)) }
{
    if n < 10 {
        room[at] = b'0' + (n as u8);
        return at + 1;
    }
    let place = put_decimal(room, at, n / 10);
    room[place] = b'0' + ((n % 10) as u8);
    place + 1
}

// (Here and below `room, at` are handed on: the public `put` takes them, and there is no heap.)
// Writes a number and the character behind it, and answers the place behind both.
fn put_field(room: &mut [u8], at: usize, n: u64, end: u8) -> usize
    requires { at + 21 ≤ length room.old }
    ensures { (result ≡ at + length (decimal n ++ (end ∷ []))) × (result ≤ at + 21) × (room.new ≡ put room.old at (decimal n ++ (end ∷ []))) }
{
    let place = put_decimal(room, at, n);
    room[place] = end;
    place + 1
}

// Writes two numbers with a space between them and a character behind them.
fn put_pair(room: &mut [u8], at: usize, n: u64, m: u64, end: u8) -> usize
    requires { at + 42 ≤ length room.old }
    ensures { (result ≡ at + length (pair_text n m end)) × (result ≤ at + 42) × (room.new ≡ put room.old at (pair_text n m end)) }
{
    let place = put_field(room, at, n, b' ');
    put_field(room, place, m, end)
}

// Is there room for the longest line?
pub(crate) fn has_room(length: usize, at: usize) -> bool
    ensures { result ≡ leb (at + 126) length }
{
    Line::LONGEST <= length.saturating_sub(at)
}

// What is written in one piece, of at most Line::LONGEST bytes.
pub(crate) trait Text: Copy {
    ghost text: { Self → List ℕ };

    // Writes the text where there is room for it, and answers the place behind it.
    fn put_text(self, room: &mut [u8], at: usize) -> usize
        requires { at + 126 ≤ length room.old }
        ensures { (result ≡ at + length (text self)) × (room.new ≡ put room.old at (text self)) };
}

// Writes a text into the room from a place on, where there is room for the longest line.
fn put_whole<T: Text>(text: T, room: &mut [u8], at: usize) -> Result<usize, NoRoom>
    ensures { (written result, room.new) ≡ wrote_of room.old at (T.text text) }
{
    if !has_room(room.len(), at) {
        return Err(NoRoom);
    }
    Ok(text.put_text(room, at))
}

impl Line {
    // Six numbers of 20 digits, with a character behind each.
    pub const LONGEST: usize = 126;

    // Writes the line into the room from a place on, and answers the place behind it. Refused with
    // 9 where there is not room for the longest line; nothing is then written.
    pub fn put(self, room: &mut [u8], at: usize) -> Result<usize, NoRoom>
        ensures { (written result, room.new) ≡ wrote_of room.old at (line_text self) }
    {
        put_whole(self, room, at)
    }
}

impl Text for Line {
    ghost text = { line_text };

    fn put_text(self, room: &mut [u8], at: usize) -> usize {
        let a = put_pair(room, at, self.index, self.answer, b' ');
        let b = put_pair(room, a, self.in_flight, self.maximum, b' ');
        put_pair(room, b, self.timeout, self.lost, b'\n')
    }
}

impl Bad {
    // The number of the refusal. A method and no `From`: docs/PROMISES.md promises `number`.
    pub fn number(self) -> u32
        ensures { result ≡ bad_number self }
    {
        match self {
            Bad::BadSession => 20,
            Bad::BadSetting => 10,
        }
    }

    // Writes the one line of a refused file. Refused with 9 as a line is.
    pub fn put(self, room: &mut [u8], at: usize) -> Result<usize, NoRoom>
        ensures { (written result, room.new) ≡ wrote_of room.old at (bad_text (bad_number self)) }
    {
        put_whole(self, room, at)
    }
}

impl Text for Bad {
    ghost text = { λ bad. bad_text (bad_number bad) };

    fn put_text(self, room: &mut [u8], at: usize) -> usize {
        room[at..at + 4].copy_from_slice(b"bad ");
        put_field(room, at + 4, u64::from(self.number()), b'\n')
    }
}

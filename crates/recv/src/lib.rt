// The receiver: payloads that arrive in any order, handed out in order, over a buffer of bytes that
// the caller lends to every call (document 01, "Receiving").

#![tactic(auto)]

use seq::SeqNum;

mod bytes;
mod sack;
mod waiting;

ghost use Rattle.std.specs.Prelude.{◌≡◌, ◌<◌, length, take};
ghost use Rattle.recv.specs.Calls.{receiver_of, over, state_of, room_of, answer_of, after_write, written_of, written_room_of, taken_of, taken_room_of, taken_out_of, acked_of, acked_room_of};
ghost use Rattle.recv.specs.Lent.{Held, whole, whole_answered};
ghost use Rattle.recv.specs.Receiver.{read_of};
ghost use Rattle.recv.specs.Numbers.{number_of};
ghost use Rattle.recv.specs.Laws.Steps.{Placeable, placed_of};
ghost use Rattle.recv.specs.Laws.Reading.{Takes};
ghost use Rattle.recv.specs.State.{sound_of, created_of, fresh_of, told_of, ack_of, written_before, empty_of, table_of};
ghost use Rattle.recv.specs.Table.{bytes_in, how_many, there_of, free_of};

// A receiver by value. `count` payloads are in order. The first `span` entries of `waiting` stand
// for the offsets past them: 0 where nothing waits, else the payload's length plus 1. The lent
// buffer holds `ready` bytes in order, then the waiting payloads by offset, end to end, then spare
// bytes.
// (Document 01: a lent buffer beside a table of lengths. No Option in it: any bits are a state.)
#[repr(C)]
#[derive(Clone, Copy)]
pub struct ReceiveBuffer {
    pub initial: SeqNum,
    pub length: u32,
    pub count: u32,
    pub ready: u32,
    pub span: u32,
    pub waiting: [u32; 256],
}

// Why a call is refused.
#[derive(Clone, Copy)]
pub enum Refusal {
    // 9: the lent room is too small.
    NoRoom,
    // 10: the buffer's length is not 1 to 65,536.
    BadSetting,
    // 15: the offset is above 60,000.
    TooMany,
    // 16: the offset is more than 256 ahead.
    TooFarAhead,
    // 17: the payload is longer than the free room.
    PayloadTooLong,
    // 18: the lent buffer is not of the length named at the start.
    OtherLength,
    // 19: the state is not sound.
    NotSound,
}

impl Refusal {
    // The number of the refusal. A method and no `From`: `Refusal::number` is what is promised.
    pub fn number(self) -> u32
        ensures { result ≡ number_of self }
    {
        match self {
            Refusal::NoRoom => 9,
            Refusal::BadSetting => 10,
            Refusal::TooMany => 15,
            Refusal::TooFarAhead => 16,
            Refusal::PayloadTooLong => 17,
            Refusal::OtherLength => 18,
            Refusal::NotSound => 19,
        }
    }
}

// What a call that makes a receiver answers.
// An enum of the port's own in place of Result: document 01, "What must change shape".
#[derive(Clone, Copy)]
pub enum Creation {
    Made,
    Refused(Refusal),
}

// What a write answers.
// An enum of the port's own in place of Result: document 01, "What must change shape".
#[derive(Clone, Copy)]
pub enum Writing {
    Stored,
    AlreadyThere,
    Refused(Refusal),
}

// What is told, as how many or whether, or why not.
// An enum of the port's own in place of Result: document 01, "What must change shape". The
// tracker's `Told` holds the tracker's reasons: one over both would be Result by another name.
#[derive(Clone, Copy)]
pub enum Told<T> {
    Is(T),
    Refused(Refusal),
}

// What a call answers, and beside it the state after the call. With a refusal the state is as it
// was; where none was made, it is of length 0, which no call takes.
// (Document 01: a state is a plain value, handed in and handed back.)
#[derive(Clone, Copy)]
pub struct Answered<A, S> {
    pub answer: A,
    pub state: S,
}

// A receiver apart from its table, which is lent beside it. `ReceiveBuffer` has these five fields
// for itself, as the C header has them: the definitions (specs/State.antt) and docs/STATE.md name
// them so.
#[repr(C)]
#[derive(Clone, Copy)]
pub struct Counts {
    pub initial: SeqNum,
    pub length: u32,
    pub count: u32,
    pub ready: u32,
    pub span: u32,
}

// What the calls do, with the table lent: it is not copied, and only what changes is written.
impl Counts {
    // The places that the table has. A state that is not sound may name more than there are.
    fn table(self, waiting: &[u32; 256]) -> &[u32]
        ensures { result.now ≡ table_of (whole self waiting.now) }
    {
        &waiting[..(self.span as usize).min(256)]
    }

    // How many bytes wait. The functions below are handed this, so that the table is passed over
    // once: as a number, since clauses over a struct with a lent table say `entry` at each field.
    fn held(self, waiting: &[u32; 256]) -> u64
        ensures { Held (whole self waiting.now) result }
    {
        waiting::bytes_in(self.table(waiting))
    }

    // Whether the state passes the soundness test.
    #[tactic(auto, unfolding(crate::specs::State::sound_of))]
    fn is_sound(self, waiting: &[u32; 256], held: u64) -> bool
        requires { Held (whole self waiting.now) held }
        ensures { result ≡ sound_of (whole self waiting.now) }
    {
        let length = self.length;
        let count = self.count;
        let span = self.span;
        if length < 1 {
            return false;
        }
        if length > 65536 {
            return false;
        }
        if span > 256 {
            return false;
        }
        if count > 60000 {
            return false;
        }
        if count + span > 60000 {
            return false;
        }
        if span == 0 {
            return self.ready <= length;
        }
        let places = span as usize;
        let last = places - 1;
        if waiting[0] != 0 {
            return false;
        }
        if waiting[last] == 0 {
            return false;
        }
        (self.ready as u64) + held <= length as u64
    }

    // Whether `offset` is at most the count, or waits.
    fn is_there(self, waiting: &[u32; 256], offset: u32) -> bool
        ensures { result ≡ there_of self.count (table_of (whole self waiting.now)) offset }
    {
        if offset <= self.count {
            return true;
        }
        let place = (offset - self.count - 1) as usize;
        self.table(waiting)
            .get(place)
            .is_some_and(|entry| *entry != 0)
    }

    // What a write of `n` bytes under `number` answers, over a buffer of `size` bytes.
    fn writing(
        self,
        waiting: &[u32; 256],
        held: u64,
        size: usize,
        number: SeqNum,
        n: usize,
    ) -> Writing
        requires { Held (whole self waiting.now) held }
        ensures { result ≡ answer_of (whole self waiting.now) size number n }
    {
        if !self.is_sound(waiting, held) {
            return Writing::Refused(Refusal::NotSound);
        }
        if size != self.length as usize {
            return Writing::Refused(Refusal::OtherLength);
        }
        let distance = number.offset_from(self.initial);
        let offset = distance.0 as u32;
        if self.is_there(waiting, offset) {
            return Writing::AlreadyThere;
        }
        if offset > 60000 {
            return Writing::Refused(Refusal::TooMany);
        }
        if offset > self.count + 256 {
            return Writing::Refused(Refusal::TooFarAhead);
        }
        if n > (self.length - self.ready) as usize - held as usize {
            return Writing::Refused(Refusal::PayloadTooLong);
        }
        Writing::Stored
    }

    // Takes the oldest `n` ready bytes out, moves what stays down, and answers the counts then.
    // Nothing moves where n is 0. The table is lent because the promise speaks of it.
    fn take(
        self,
        waiting: &[u32; 256],
        held: u64,
        buf: &mut [u8],
        out: &mut [u8],
        n: usize,
    ) -> Counts
        requires { (Takes (whole self waiting.now) buf.old out.old n) × (Held (whole self waiting.now) held) }
        ensures { let s = whole self waiting.now in
            let receiver = receiver_of s buf.old in
            let after = read_of receiver n in
            (whole result waiting.now ≡ state_of waiting.now after)
            × (buf.new ≡ room_of buf.old after)
            × (out.new ≡ over (take n receiver.ready) out.old) }
    {
        if n == 0 {
            return self;
        }
        let ready = self.ready - n as u32;
        bytes::copy(&mut out[..n], &buf[..n]);
        buf.copy_within(n..n + ready as usize + held as usize, 0);
        Counts { ready, ..self }
    }

    // The payload waits past a gap.
    fn kept(self, waiting: &mut [u32; 256], place: usize, n: u32) -> Counts
        requires { (Placeable (whole self waiting.old) place n) × (0 < place) }
        ensures { whole result waiting.new ≡ placed_of (whole self waiting.old) place n }
    {
        let span = self.span as usize;
        if place < span {
            waiting[place] = n + 1;
            return self;
        }
        waiting[span..place].fill(0);
        waiting[place] = n + 1;
        Counts {
            span: (place + 1) as u32,
            ..self
        }
    }

    // Place 0 is filled and others wait: they move to ready as far as no gap comes.
    fn moved(self, waiting: &mut [u32; 256], n: u32) -> Counts
        requires { (Placeable (whole self waiting.old) 0 n) × (0 < self.span) }
        ensures { whole result waiting.new ≡ placed_of (whole self waiting.old) 0 n }
    {
        let span = self.span as usize;
        let run = 1 + waiting::run(&waiting[1..span]);
        let bytes = waiting::bytes_in(&waiting[..run]) as u32;
        waiting.copy_within(run..span, 0);
        Counts {
            count: self.count + run as u32,
            ready: self.ready + n + bytes,
            span: (span - run) as u32,
            ..self
        }
    }

    // A payload of `n` bytes is stored at `place`, and every next waiting one becomes ready.
    fn placed(self, waiting: &mut [u32; 256], place: usize, n: u32) -> Counts
        requires { Placeable (whole self waiting.old) place n }
        ensures { whole result waiting.new ≡ placed_of (whole self waiting.old) place n }
    {
        if place != 0 {
            return self.kept(waiting, place, n);
        }
        if self.span == 0 {
            return Counts {
                count: self.count + 1,
                ready: self.ready + n,
                ..self
            };
        }
        self.moved(waiting, n)
    }

    // Puts `payload` into the buffer at the place of `number`, and answers the counts after that.
    fn store(
        self,
        waiting: &mut [u32; 256],
        held: u64,
        buf: &mut [u8],
        number: SeqNum,
        payload: &[u8],
    ) -> Counts
        requires { (answer_of (whole self waiting.old) (length buf.old) number (length payload.now) ≡ Writing.Stored) × (Held (whole self waiting.old) held) }
        ensures { let s = whole self waiting.old in
            let after = after_write s buf.old number payload.now in
            (whole result waiting.new ≡ state_of waiting.old after)
            × (buf.new ≡ room_of buf.old after) }
    {
        let offset = number.offset_from(self.initial);
        let place = (offset.0 as u32 - self.count - 1) as usize;
        let before = waiting::bytes_before(self.table(waiting), place) as usize;
        bytes::insert(
            buf,
            self.ready as usize + before,
            held as usize - before,
            payload,
        );
        self.placed(waiting, place, payload.len() as u32)
    }

    // `ReceiveBuffer::write` where the table stays in place, and only what changes is written.
    // Refusals: 19, 18, 15, 16, 17.
    pub fn write_in(
        self,
        waiting: &mut [u32; 256],
        buf: &mut [u8],
        number: SeqNum,
        payload: &[u8],
    ) -> Answered<Writing, Counts>
        ensures { let s = whole self waiting.old in
            (whole_answered result waiting.new ≡ written_of s buf.old number payload.now)
            × (buf.new ≡ written_room_of s buf.old number payload.now) }
    {
        let held = self.held(waiting);
        let answer = self.writing(waiting, held, buf.len(), number, payload.len());
        let state = match answer {
            Writing::Stored => self.store(waiting, held, buf, number, payload),
            _ => self,
        };
        Answered { answer, state }
    }

    // `ReceiveBuffer::read` where the table stays in place. Refusals: 19, 18.
    pub fn read_in(
        self,
        waiting: &[u32; 256],
        buf: &mut [u8],
        out: &mut [u8],
    ) -> Answered<Told<usize>, Counts>
        ensures { let s = whole self waiting.now in
            (whole_answered result waiting.now ≡ taken_of s buf.old out.old)
            × (buf.new ≡ taken_room_of s buf.old out.old)
            × (out.new ≡ taken_out_of s buf.old out.old) }
    {
        let held = self.held(waiting);
        if !self.is_sound(waiting, held) {
            return Answered {
                answer: Told::Refused(Refusal::NotSound),
                state: self,
            };
        }
        if buf.len() != self.length as usize {
            return Answered {
                answer: Told::Refused(Refusal::OtherLength),
                state: self,
            };
        }
        let n = out.len().min(self.ready as usize);
        Answered {
            answer: Told::Is(n),
            state: self.take(waiting, held, buf, out, n),
        }
    }
}

impl ReceiveBuffer {
    // The state apart from its table.
    fn counts(&self) -> Counts
        ensures { whole result self.now.waiting ≡ self.now }
    {
        Counts {
            initial: self.initial,
            length: self.length,
            count: self.count,
            ready: self.ready,
            span: self.span,
        }
    }

    // The state of these counts and this table.
    fn from_parts(counts: Counts, waiting: [u32; 256]) -> ReceiveBuffer
        ensures { result ≡ whole counts waiting }
    {
        ReceiveBuffer {
            initial: counts.initial,
            length: counts.length,
            count: counts.count,
            ready: counts.ready,
            span: counts.span,
            waiting,
        }
    }

    // Nothing in order, nothing ready, nothing waiting.
    fn fresh(initial: SeqNum, length: u32) -> ReceiveBuffer
        ensures { result ≡ fresh_of initial length }
    {
        ReceiveBuffer {
            initial,
            length,
            count: 0,
            ready: 0,
            span: 0,
            waiting: [0u32; 256],
        }
    }

    // The places that the table has.
    fn table(&self) -> &[u32]
        ensures { result.now ≡ table_of self.now }
    {
        self.counts().table(&self.waiting)
    }

    // Whether the state passes the soundness test.
    fn is_sound(&self) -> bool
        ensures { result ≡ sound_of self.now }
    {
        let counts = self.counts();
        let held = counts.held(&self.waiting);
        counts.is_sound(&self.waiting, held)
    }

    // What is read of the state, where it is sound. (What takes a walk is asked for behind the test.)
    fn told<T: Copy>(&self, value: T) -> Told<T>
        ensures { result ≡ told_of self.now value }
    {
        if self.is_sound() {
            Told::Is(value)
        } else {
            Told::Refused(Refusal::NotSound)
        }
    }

    // A receiver for payloads after `initial`, over a buffer of `length` bytes. Refusals: 10.
    pub fn new(initial: SeqNum, length: usize) -> Answered<Creation, ReceiveBuffer>
        ensures { result ≡ created_of initial length }
    {
        if length < 1 || length > 65536 {
            return Answered {
                answer: Creation::Refused(Refusal::BadSetting),
                state: ReceiveBuffer::fresh(initial, 0),
            };
        }
        Answered {
            answer: Creation::Made,
            state: ReceiveBuffer::fresh(initial, length as u32),
        }
    }

    // Stores `payload` under `number`, and moves every next waiting payload to ready. A number that
    // is already there changes nothing. Refusals: 19, 18, 15, 16, 17.
    pub fn write(
        self,
        buf: &mut [u8],
        number: SeqNum,
        payload: &[u8],
    ) -> Answered<Writing, ReceiveBuffer>
        ensures { (result ≡ written_of self buf.old number payload.now) × (buf.new ≡ written_room_of self buf.old number payload.now) }
    {
        let mut waiting = self.waiting;
        let step = self.counts().write_in(&mut waiting, buf, number, payload);
        Answered {
            answer: step.answer,
            state: ReceiveBuffer::from_parts(step.state, waiting),
        }
    }

    // Reads the oldest ready bytes into `out`, as many as there are and fit. Refusals: 19, 18.
    pub fn read(self, buf: &mut [u8], out: &mut [u8]) -> Answered<Told<usize>, ReceiveBuffer>
        ensures { (result ≡ taken_of self buf.old out.old) × (buf.new ≡ taken_room_of self buf.old out.old) × (out.new ≡ taken_out_of self buf.old out.old) }
    {
        let step = self.counts().read_in(&self.waiting, buf, out);
        Answered {
            answer: step.answer,
            state: ReceiveBuffer::from_parts(step.state, self.waiting),
        }
    }

    // How many bytes more the buffer can hold. Refusals: 19.
    pub fn available(self) -> Told<usize>
        ensures { result ≡ told_of self (free_of self.length self.ready (table_of self)) }
    {
        if !self.is_sound() {
            return Told::Refused(Refusal::NotSound);
        }
        let free = self.length.saturating_sub(self.ready) as u64;
        Told::Is(free.saturating_sub(waiting::bytes_in(self.table())) as usize)
    }

    // Whether no byte is ready and nothing waits. Refusals: 19.
    pub fn is_empty(self) -> Told<bool>
        ensures { result ≡ told_of self (empty_of self) }
    {
        if !self.is_sound() {
            return Told::Refused(Refusal::NotSound);
        }
        Told::Is(self.ready == 0 && waiting::how_many(self.table()) == 0)
    }

    // The number before the first payload's. Refusals: 19.
    pub fn init_seq_num(self) -> Told<SeqNum>
        ensures { result ≡ told_of self self.initial }
    {
        self.told(self.initial)
    }

    // Whether the payload of `number` is already there. Refusals: 19.
    pub fn was_written(self, number: SeqNum) -> Told<bool>
        ensures { result ≡ told_of self (written_before self number) }
    {
        let offset = number.offset_from(self.initial);
        self.told(self.counts().is_there(&self.waiting, offset.0 as u32))
    }

    // The last number of the payloads in order. Refusals: 19.
    pub fn ack_num(self) -> Told<SeqNum>
        ensures { result ≡ told_of self (ack_of self) }
    {
        self.told(self.initial.at(self.count))
    }

    // Writes the selective ACK into `room` and answers its length: 0, which means none, with
    // nothing waiting. Refusals: 19, 9.
    // (0 and no Option: document 01, "an empty SACK means none".)
    pub fn selective_ack(self, room: &mut [u8]) -> Told<usize>
        ensures { (result ≡ acked_of self (length room.old)) × (room.new ≡ acked_room_of self room.old) }
    {
        if !self.is_sound() {
            return Told::Refused(Refusal::NotSound);
        }
        let table = self.table();
        let n = sack::length_for(table);
        if n > room.len() {
            return Told::Refused(Refusal::NoRoom);
        }
        sack::fill(table, self.initial.at(self.count), &mut room[..n]);
        Told::Is(n)
    }

    // How many payloads are in order: document 01's c. Refusals: 19.
    pub fn count(self) -> Told<usize>
        ensures { result ≡ told_of self self.count }
    {
        self.told(self.count as usize)
    }

    // How many bytes are ready. Refusals: 19.
    pub fn ready(self) -> Told<usize>
        ensures { result ≡ told_of self self.ready }
    {
        self.told(self.ready as usize)
    }

    // How many payloads wait. Refusals: 19.
    pub fn waiting(self) -> Told<usize>
        ensures { result ≡ told_of self (how_many (table_of self)) }
    {
        if !self.is_sound() {
            return Told::Refused(Refusal::NotSound);
        }
        Told::Is(waiting::how_many(self.table()))
    }

    // How many bytes wait. Refusals: 19.
    pub fn waiting_bytes(self) -> Told<usize>
        ensures { result ≡ told_of self (bytes_in (table_of self)) }
    {
        if !self.is_sound() {
            return Told::Refused(Refusal::NotSound);
        }
        Told::Is(waiting::bytes_in(self.table()) as usize)
    }
}

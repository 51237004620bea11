// A list of records, compared one after the other with what the codec answers.
use list::behind;
use report::tally::Tally;

// What comparing a record tells: how many bytes the record has, the answer that it records, and
// whether the codec's is the same.
#[derive(Clone, Copy)]
pub(crate) struct Compared {
    pub size: usize,
    pub answer: u64,
    pub is_same: bool,
}

// One record more, the first of these bytes. One that they cut off differs.
pub(crate) fn counted(tally: Tally, bytes: &[u8], record: Compared) -> Tally {
    let is_whole = record.size <= bytes.len();
    tally.counted(record.answer, is_whole & record.is_same)
}

// Compares each record of a list, which has a byte or more.
pub(crate) fn replay<C: FnMut(&[u8]) -> Compared>(list: &[u8], mut compare: C) -> Tally
    requires { C.IsAlwaysCallable compare }
{
    let mut tally = Tally::new();
    let mut rest = list;
    for _ in 0..list.len() {
        if rest.is_empty() {
            break;
        }
        let record = compare(rest);
        tally = counted(tally, rest, record);
        rest = behind(rest, record.size);
    }
    tally
}

// The chain of extensions behind the header.
ghost use Rattle.std.specs.Prelude.{◌≡◌};
ghost use Rattle.packet.specs.Chain.{step_of, chain_from, end_of, read_of};
ghost use Rattle.packet.specs.Decode.{part_of};
ghost use Rattle.packet.specs.Answers.{stepped, ended, chain_read};

// A part of a datagram, by its place and length.
// (No slice: document 01 shows the payload "as its place and length in the datagram".)
#[derive(Clone, Copy)]
pub struct Part {
    pub at: usize,
    pub len: usize,
}

#[derive(Clone, Copy)]
pub struct Extension {
    pub number: u8,
    pub body: Part,
}

// Where a walk along the chain stands: the number of the current extension, and its place.
#[derive(Clone, Copy)]
pub struct Cursor {
    pub number: u8,
    pub at: usize,
}

// A head or a body runs past the end of the datagram (4).
#[derive(Clone, Copy)]
pub struct PastEnd;

impl Part {
    // The bytes of the part; none where it does not lie within the datagram.
    // (By hand: two gets would need a match, or a closure and a default, around them.)
    pub fn bytes(self, datagram: &[u8]) -> &[u8]
        ensures { result.now ≡ part_of self datagram.now }
    {
        let Part { at, len } = self;
        if at <= datagram.len() && len <= datagram.len() - at {
            &datagram[at..at + len]
        } else {
            &[]
        }
    }
}

impl Cursor {
    // One step along the chain: the extension found and where the next one stands, or None at the
    // end of the chain.
    pub fn step(self, datagram: &[u8]) -> Result<Option<(Extension, Cursor)>, PastEnd>
        ensures { stepped result ≡ step_of datagram.now self }
    {
        let Cursor { number, at } = self;
        if number == 0 {
            return Ok(None);
        }
        if datagram.len() < 2 || datagram.len() - 2 < at {
            return Err(PastEnd);
        }
        let len = usize::from(datagram[at + 1]);
        if datagram.len() - at - 2 < len {
            return Err(PastEnd);
        }
        let body = Part { at: at + 2, len };
        Ok(Some((
            Extension { number, body },
            Cursor {
                number: datagram[at],
                at: at + 2 + len,
            },
        )))
    }
}

// Walks the rest of a chain, to the place where it ends. Walks go by steps and not by an Iterator,
// since a `for` would not tell where they ended.
fn chain_end(datagram: &[u8], from: Cursor) -> Result<usize, PastEnd>
    ensures { ended result ≡ end_of (chain_from datagram.now from) }
{
    let mut cursor = from;
    while let Some((_, next)) = cursor.step(datagram)? {
        cursor = next;
    }
    Ok(cursor.at)
}

// Walks the whole chain: the body of its first SACK, and the place where the chain ends. Behind the
// first SACK nothing is kept, so that walk is the other, which is quicker.
pub(crate) fn read_chain(datagram: &[u8], from: Cursor) -> Result<(Option<Part>, usize), PastEnd>
    ensures { chain_read result ≡ read_of (chain_from datagram.now from) }
{
    let mut cursor = from;
    while let Some((extension, next)) = cursor.step(datagram)? {
        if extension.number == 1 {
            let end = chain_end(datagram, next)?;
            return Ok((Some(extension.body), end));
        }
        cursor = next;
    }
    Ok((None, cursor.at))
}

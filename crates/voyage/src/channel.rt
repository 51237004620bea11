// The channel: places for datagrams of up to 1,024 bytes. Datagrams stay in it until they are taken
// out, in any order, any number of times, or never.
use crate::refusal::Refusal;
use packet::decode::Packet;
use packet::encode::Encoded;
use packet::header::Header;
use report::text::front;

// (Fixed room and no Vec: a packet is never lost for want of memory.)
#[derive(Clone, Copy)]
struct Place {
    room: [u8; 1024],
    // How many bytes the datagram has, if there is one.
    length: Option<usize>,
}

#[derive(Drop)]
pub(crate) struct Channel {
    places: [Place; 64],
}

// Where a datagram stands, and how many bytes it has.
// (A place and no reference: it stays in the channel until it is taken out.)
#[derive(Clone, Copy)]
pub(crate) struct Held {
    place: usize,
    length: usize,
}

// Why a packet is not put into the channel: all places are held, or the writer refuses it.
#[derive(Clone, Copy)]
pub(crate) enum PutError {
    Full,
    Refused(Refusal),
}

impl Place {
    // Writes a packet.
    fn put(&mut self, header: Header, sack: &[u8], payload: &[u8]) -> Result<(), PutError> {
        match Packet::encode(header, sack, payload, &mut self.room) {
            Encoded::Written(size) => {
                self.length = Some(size);
                Ok(())
            }
            Encoded::Refused(why) => Err(PutError::Refused(Refusal::from(why))),
        }
    }
}

impl Channel {
    pub(crate) fn new() -> Self {
        let free = Place {
            room: [0; 1024],
            length: None,
        };
        Self { places: [free; 64] }
    }

    // Writes a packet at the first free place of so many.
    pub(crate) fn put(
        &mut self,
        depth: usize,
        header: Header,
        sack: &[u8],
        payload: &[u8],
    ) -> Result<(), PutError> {
        for place in self.places.iter_mut().take(depth) {
            if place.length.is_none() {
                return place.put(header, sack, payload);
            }
        }
        Err(PutError::Full)
    }

    // The datagram at a place, if there is one.
    fn held(&self, place: usize) -> Option<Held> {
        let length = self.places.get(place)?.length?;
        Some(Held { place, length })
    }

    // The first datagram from the place `start` on and round.
    pub(crate) fn pick(&self, start: u64) -> Option<Held> {
        let first = (start % 64) as usize;
        (first..64)
            .chain(0..first)
            .find_map(|place| self.held(place))
    }

    // The bytes of a datagram, which stay until the next one is put.
    pub(crate) fn bytes(&self, held: Held) -> &[u8] {
        match self.places.get(held.place) {
            Some(place) => front(&place.room, held.length),
            None => b"",
        }
    }

    // Takes a datagram out.
    pub(crate) fn free(&mut self, held: Held) {
        if let Some(place) = self.places.get_mut(held.place) {
            place.length = None;
        }
    }
}

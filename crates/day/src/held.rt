// Bytes at the start of a room that has a place for the most that there can be: a room and a count, since there is no heap.
#[derive(Clone, Copy)]
pub struct Held<const N: usize> {
    room: [u8; N],
    count: usize,
}

impl<const N: usize> Held<N> {
    pub fn none() -> Held<N> {
        Held {
            room: [0; N],
            count: 0,
        }
    }

    // The first bytes of the room, or all of it.
    pub fn new(room: [u8; N], count: usize) -> Held<N> {
        Held { room, count }
    }

    pub fn bytes(&self) -> &[u8] {
        text::first(&self.room, self.count)
    }
}

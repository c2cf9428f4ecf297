// The room that the calls of a list work in. It is made once and lent to each of them, so that no memory is asked for on the way.
ghost use Rattle.std.specs.Prelude.{◌≡◌, take};

use super::reader::Line;
use super::text::AnswerText;
use arrayvec::{ArrayString, ArrayVec};
use range_buf::RangeBuf;

// A room for an arena's bytes has one more than the largest arena. All above that is refused alike, so a longer arena is made this long.
#[derive(Drop)]
pub struct Rooms {
    // The arenas of the send and of the receive buffer, and one that is lent in place of the buffer's own.
    pub send: [u8; 65537],
    pub recv: [u8; 65537],
    pub lent: [u8; 65537],
    // What an emit hands out, or what a buffer holds.
    pub shown: [u8; 65537],
    // The byte string of a line.
    pub bytes: [u8; 70000],
    // The last call's line, our `ANSWER | STATE`, and the stored line that it differs from.
    pub call: Line,
    pub ours: AnswerText,
    pub stored: Line,
}

impl Rooms {
    pub fn new() -> Rooms {
        Rooms {
            send: [0; 65537],
            recv: [0; 65537],
            lent: [0; 65537],
            shown: [0; 65537],
            bytes: [0; 70000],
            call: ArrayVec::new(),
            ours: ArrayString::new(),
            stored: ArrayVec::new(),
        }
    }
}

// The first `n` bytes of a room, or all where it has fewer.
pub fn front(room: &[u8], n: u64) -> &[u8]
    ensures { result.now ≡ take n room.now }
{
    &room[..n.min(room.len() as u64) as usize]
}

// The same to write on.
pub fn front_mut(room: &mut [u8], n: u64) -> &mut [u8]
    ensures { result.now ≡ take n room.old }
{
    let n = n.min(room.len() as u64) as usize;
    &mut room[..n]
}

// The arena that a call finds: the buffer's own, or zeros of the length that a line lends in its place.
pub fn found<'a>(own: &'a mut [u8], other: &'a mut [u8], lent: Option<u64>) -> &'a mut [u8] {
    match lent {
        Some(length) => {
            let arena = front_mut(other, length);
            arena.fill(0);
            arena
        }
        None => own,
    }
}

// Puts the chunks' bytes one behind the other into a room: all, or only those that are not consumed.
pub fn held<'a>(arena: &[u8], chunks: &[RangeBuf], all: bool, room: &'a mut [u8]) -> &'a [u8] {
    let mut length = 0;
    for chunk in chunks {
        let skipped = if all { 0 } else { chunk.pos };
        let from = length.min(room.len());
        let part = front_mut(&mut room[from..], chunk.len.saturating_sub(skipped));
        arena::hand(arena, chunk.off.saturating_add(skipped), part);
        length = from + part.len();
    }
    front(room, length as u64)
}

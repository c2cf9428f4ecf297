// A chunk (`rb.`): its calls, and how they are made.
ghost use Rattle.range_buf.specs.State.{Good};

use super::object::Object;
use super::rooms::Rooms;
use super::text::{Said, Text};
use super::words::{NotUnderstood, Part, bytes, number, side};
use range_buf::RangeBuf;
use refusal::Refusal;
use std::fmt;
use std::fmt::Write;

// It is good at all times, as its calls ask.
#[derive(Drop)]
pub struct Chunk {
    pub buf: RangeBuf,
    ghost good: { Good buf },
}

#[derive(Drop)]
pub enum ChunkCall {
    Consume(u64),
    Split(u64, Part),
    Off,
    MaxOff,
    Len,
    IsEmpty,
}

impl Object for Chunk {
    type Call = ChunkCall;

    // Of its bytes only the count matters.
    fn create(rooms: &mut Rooms, words: &[&str]) -> Result<Result<Chunk, Refusal>, NotUnderstood> {
        match words {
            [off, data] => Ok(Chunk::new(number(off)?, bytes(&mut rooms.bytes, data)?)),
            _ => Err(NotUnderstood),
        }
    }

    fn read(_rooms: &mut Rooms, name: &str, words: &[&str]) -> Result<ChunkCall, NotUnderstood> {
        Ok(match (name, words) {
            ("consume", [n]) => ChunkCall::Consume(number(n)?),
            ("split", [at, part]) => ChunkCall::Split(number(at)?, side(part)?),
            ("off", []) => ChunkCall::Off,
            ("max_off", []) => ChunkCall::MaxOff,
            ("len", []) => ChunkCall::Len,
            ("is_empty", []) => ChunkCall::IsEmpty,
            _ => return Err(NotUnderstood),
        })
    }

    fn call(&mut self, _rooms: &mut Rooms, call: ChunkCall) -> Said {
        match call {
            ChunkCall::Consume(n) => self.consume(n),
            ChunkCall::Split(at, part) => self.split(at, part),
            ChunkCall::Off => Said::Number(self.buf.off()),
            ChunkCall::MaxOff => Said::Number(self.buf.max_off()),
            ChunkCall::Len => Said::Number(self.buf.len()),
            ChunkCall::IsEmpty => Said::Mark(self.buf.is_empty()),
        }
    }

    fn show(&self, rooms: &mut Rooms) -> fmt::Result {
        write!(rooms.ours, "{}", Text(self.buf))
    }
}

impl Chunk {
    fn new(off: u64, len: u64) -> Result<Chunk, Refusal> {
        let done = RangeBuf::from(off, len);
        done.answer?;
        Ok(Chunk { buf: done.state })
    }

    fn consume(&mut self, n: u64) -> Said {
        let done = self.buf.consume(n);
        self.buf = done.state;
        done.answer.into()
    }

    // A split answers with the right part, and keeps one of the two.
    fn split(&mut self, at: u64, part: Part) -> Said {
        let done = self.buf.split_off(at);
        self.buf = match (part, done.answer) {
            (Part::Right, Ok(right)) => right,
            _ => done.state,
        };
        done.answer.into()
    }
}

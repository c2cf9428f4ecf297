// The five objects of a sequence, and a call on one of them.
ghost use Rattle.vectors.specs.Sound.{Sound};

use super::chunk::Chunk;
use super::object::turn;
use super::recv::Receiver;
use super::rooms::Rooms;
use super::send::Sender;
use super::set::Set;
use super::tally::Kind;
use super::window::Window;
use super::words::{self, NotUnderstood};

// Each is there once it was created.
#[derive(Drop)]
pub struct Objects {
    chunk: Option<Chunk>,
    window: Option<Window>,
    set: Option<Set>,
    send: Option<Sender>,
    recv: Option<Receiver>,
}

impl Objects {
    pub fn new() -> Objects
        ensures { Sound result }
    {
        Objects {
            chunk: None,
            window: None,
            set: None,
            send: None,
            recv: None,
        }
    }

    // Makes the call of a line, and puts `ANSWER | STATE` into its room: which object it is on.
    pub fn call(&mut self, rooms: &mut Rooms, line: &[u8]) -> Result<Kind, NotUnderstood>
        ensures { Sound self.new }
    {
        let Ok(line) = str::from_utf8(line) else {
            return Err(NotUnderstood);
        };
        let words = words::split(line)?;
        let [name, words @ ..] = words.as_slice() else {
            return Err(NotUnderstood);
        };
        match name.split_once('.') {
            Some(("rb", name)) => {
                turn(&mut self.chunk, rooms, name, words)?;
                Ok(Kind::Chunk)
            }
            Some(("fc", name)) => {
                turn(&mut self.window, rooms, name, words)?;
                Ok(Kind::Window)
            }
            Some(("rs", name)) => {
                turn(&mut self.set, rooms, name, words)?;
                Ok(Kind::Set)
            }
            Some(("s", name)) => {
                turn(&mut self.send, rooms, name, words)?;
                Ok(Kind::Send)
            }
            Some(("r", name)) => {
                turn(&mut self.recv, rooms, name, words)?;
                Ok(Kind::Recv)
            }
            _ => Err(NotUnderstood),
        }
    }
}

// A send buffer (`s.`): its calls, and how they are made.
ghost use Rattle.send_buf.specs.State.{Good};
ghost use Rattle.send_buf.proofs.Props.{send_props};

use super::object::Object;
use super::rooms::{Rooms, found, front, front_mut, held};
use super::text::{AnswerText, Bytes, GettersText, List, Said, Shown, Text};
use super::words::{NotUnderstood, bytes, lent, mark, number, optional};
use range_buf::RangeBuf;
use refusal::Refusal;
use send_buf::SendBuf;
use std::fmt;
use std::fmt::Write;

// The buffer alone. It is good at all times, as its calls ask.
#[derive(Drop)]
struct Sending {
    buf: SendBuf,
    ghost good: { Good buf } by { Prim.hlevel send_props },
}

// The buffer, and how long its arena is.
#[derive(Drop)]
pub struct Sender {
    sending: Sending,
    arena: u64,
}

#[derive(Drop)]
pub enum SendCall {
    Write {
        // How many bytes of their room.
        data: u64,
        fin: bool,
        lent: Option<u64>,
    },
    Emit {
        room: u64,
        lent: Option<u64>,
    },
    Ack {
        off: u64,
        len: u64,
    },
    AckAndDrop {
        off: u64,
        len: u64,
    },
    Retransmit {
        off: u64,
        len: u64,
    },
    UpdateMaxData(u64),
    UpdateBlockedAt(Option<u64>),
    Reset,
    Stop {
        code: u64,
    },
    Shutdown,
    Get,
}

impl Object for Sender {
    type Call = SendCall;

    fn create(rooms: &mut Rooms, words: &[&str]) -> Result<Result<Sender, Refusal>, NotUnderstood> {
        match words {
            [limit, arena] => Ok(Sender::new(rooms, number(limit)?, number(arena)?)),
            _ => Err(NotUnderstood),
        }
    }

    fn read(rooms: &mut Rooms, name: &str, words: &[&str]) -> Result<SendCall, NotUnderstood> {
        Ok(match (name, words) {
            ("write", [data, fin, rest @ ..]) => SendCall::Write {
                data: bytes(&mut rooms.bytes, data)?,
                fin: mark(fin)?,
                lent: lent(rest)?,
            },
            ("emit", [room, rest @ ..]) => SendCall::Emit {
                room: number(room)?,
                lent: lent(rest)?,
            },
            ("ack", [off, len]) => SendCall::Ack {
                off: number(off)?,
                len: number(len)?,
            },
            ("ack_and_drop", [off, len]) => SendCall::AckAndDrop {
                off: number(off)?,
                len: number(len)?,
            },
            ("retransmit", [off, len]) => SendCall::Retransmit {
                off: number(off)?,
                len: number(len)?,
            },
            ("update_max_data", [limit]) => SendCall::UpdateMaxData(number(limit)?),
            ("update_blocked_at", [off]) => SendCall::UpdateBlockedAt(optional(off)?),
            ("reset", []) => SendCall::Reset,
            ("stop", [code]) => SendCall::Stop {
                code: number(code)?,
            },
            ("shutdown", []) => SendCall::Shutdown,
            ("get", []) => SendCall::Get,
            _ => return Err(NotUnderstood),
        })
    }

    fn call(&mut self, rooms: &mut Rooms, call: SendCall) -> Said {
        match call {
            SendCall::Write { data, fin, lent } => self.write(rooms, data, fin, lent),
            SendCall::Emit { room, lent } => self.emit(rooms, room, lent),
            SendCall::Ack { off, len } => self.sending.ack(off, len),
            SendCall::AckAndDrop { off, len } => self.sending.ack_and_drop(off, len),
            SendCall::Retransmit { off, len } => self.sending.retransmit(off, len),
            SendCall::UpdateMaxData(limit) => self.sending.update_max_data(limit),
            SendCall::UpdateBlockedAt(off) => self.sending.update_blocked_at(off),
            SendCall::Reset => self.sending.reset(),
            SendCall::Stop { code } => self.sending.stop(code),
            SendCall::Shutdown => self.sending.shutdown(),
            SendCall::Get => Said::Getters(self.sending.getters()),
        }
    }

    fn show(&self, rooms: &mut Rooms) -> fmt::Result {
        let held = self.held(rooms);
        self.sending.show(held, &mut rooms.ours)
    }
}

impl Sender {
    // A new buffer finds the arena as zeros.
    fn new(rooms: &mut Rooms, limit: u64, length: u64) -> Result<Sender, Refusal> {
        let arena = front_mut(&mut rooms.send, length);
        let sending = Sending::new(limit, arena)?;
        arena.fill(0);
        Ok(Sender {
            sending,
            arena: length,
        })
    }

    fn write(&mut self, rooms: &mut Rooms, data: u64, fin: bool, lent: Option<u64>) -> Said {
        let own = front_mut(&mut rooms.send, self.arena);
        let arena = found(own, &mut rooms.lent, lent);
        self.sending.write(arena, front(&rooms.bytes, data), fin)
    }

    fn emit(&mut self, rooms: &mut Rooms, room: u64, lent: Option<u64>) -> Said {
        let own = front_mut(&mut rooms.send, self.arena);
        let arena = found(own, &mut rooms.lent, lent);
        let out = front_mut(&mut rooms.shown, room);
        let answer = self.sending.emit(arena, out);
        Said::emitted(answer, out)
    }

    // All bytes of the chunks.
    fn held(&self, rooms: &mut Rooms) -> Bytes {
        let arena = front(&rooms.send, self.arena);
        Bytes::of(held(arena, self.sending.chunks(), true, &mut rooms.shown))
    }
}

// Each method keeps the state that its call leaves. A helper for that would be handed the whole buffer once more, and each method would name
// its own law under `using` all the same.
impl Sending {
    #[tactic(auto, using(send_buf::proofs::Kept::created_good))]
    fn new(limit: u64, arena: &[u8]) -> Result<Sending, Refusal> {
        let done = SendBuf::new(limit, arena);
        done.answer?;
        Ok(Sending { buf: done.state })
    }

    #[tactic(auto, using(send_buf::proofs::Kept::written_good))]
    fn write(&mut self, arena: &mut [u8], data: &[u8], fin: bool) -> Said {
        let done = self.buf.write(arena, data, fin);
        self.buf = done.state;
        done.answer.into()
    }

    #[tactic(auto, using(send_buf::proofs::Kept::emitted_good))]
    fn emit(&mut self, arena: &[u8], out: &mut [u8]) -> Result<(u64, bool), Refusal> {
        let done = self.buf.emit(arena, out);
        self.buf = done.state;
        done.answer
    }

    #[tactic(auto, using(send_buf::proofs::Kept::acks_good))]
    fn ack(&mut self, off: u64, len: u64) -> Said {
        let done = self.buf.ack(off, len);
        self.buf = done.state;
        done.answer.into()
    }

    #[tactic(auto, using(send_buf::proofs::Kept::ack_drops_good))]
    fn ack_and_drop(&mut self, off: u64, len: u64) -> Said {
        let done = self.buf.ack_and_drop(off, len);
        self.buf = done.state;
        done.answer.into()
    }

    #[tactic(auto, using(send_buf::proofs::Kept::retransmits_good))]
    fn retransmit(&mut self, off: u64, len: u64) -> Said {
        let done = self.buf.retransmit(off, len);
        self.buf = done.state;
        done.answer.into()
    }

    #[tactic(auto, using(send_buf::proofs::Kept::raised_limit_good))]
    fn update_max_data(&mut self, limit: u64) -> Said {
        let done = self.buf.update_max_data(limit);
        self.buf = done.state;
        done.answer.into()
    }

    #[tactic(auto, using(send_buf::proofs::Kept::blocked_at_good))]
    fn update_blocked_at(&mut self, off: Option<u64>) -> Said {
        self.buf = self.buf.update_blocked_at(off);
        Said::Done
    }

    #[tactic(auto, using(send_buf::proofs::Kept::resets_good))]
    fn reset(&mut self) -> Said {
        let done = self.buf.reset();
        self.buf = done.state;
        done.answer.into()
    }

    #[tactic(auto, using(send_buf::proofs::Kept::stops_good))]
    fn stop(&mut self, code: u64) -> Said {
        let done = self.buf.stop(code);
        self.buf = done.state;
        done.answer.into()
    }

    #[tactic(auto, using(send_buf::proofs::Kept::shuts_good))]
    fn shutdown(&mut self) -> Said {
        let done = self.buf.shutdown();
        self.buf = done.state;
        done.answer.into()
    }

    fn getters(&self) -> GettersText {
        let buf = &self.buf;
        let mut text = GettersText::new();
        let _ = write!(
            text,
            "off_back={} off_front={} max_off={} is_fin={} is_complete={} is_stopped={} is_shutdown={} is_empty={} ack_off={} cap={} bufs_count={} \
             buffered_bytes={} blocked_at={}",
            buf.off_back(),
            buf.off_front(),
            buf.max_off(),
            Text(buf.is_fin()),
            Text(buf.is_complete()),
            Text(buf.is_stopped()),
            Text(buf.is_shutdown()),
            Text(buf.is_empty()),
            buf.ack_off(),
            Text(buf.cap()),
            buf.bufs_count(),
            buf.buffered_bytes(),
            Text(buf.blocked_at())
        );
        text
    }

    fn chunks(&self) -> &[RangeBuf] {
        &self.buf.data[..self.buf.count.min(64)]
    }

    fn show(&self, held: Bytes, text: &mut AnswerText) -> fmt::Result {
        let buf = &self.buf;
        write!(
            text,
            "chunks={} held={held} pos={} off={} emitted={} tosend={} limit={} blocked={} fin={} acked={} shut={} err={}",
            List(self.chunks()),
            buf.pos,
            buf.off,
            buf.emit_off,
            buf.buffered_bytes,
            buf.max_data,
            Text(buf.blocked_at),
            Text(buf.fin_off),
            Text(buf.acked),
            Text(buf.shutdown),
            Text(buf.error)
        )
    }
}

// The room that the limit leaves; a refusal in parentheses.
impl Shown for Result<u64, Refusal> {
    fn show<W: fmt::Write>(self, f: &mut fmt::Formatter<W>) -> fmt::Result {
        match self {
            Ok(n) => write!(f, "{n}"),
            Err(why) => write!(f, "({})", Text(why)),
        }
    }
}

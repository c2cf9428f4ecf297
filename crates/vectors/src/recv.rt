// A receive buffer (`r.`): its calls, and how they are made.
ghost use Rattle.recv_buf.specs.State.{Good};
ghost use Rattle.recv_buf.proofs.Props.{recv_props};

use super::object::Object;
use super::rooms::{Rooms, found, front, front_mut, held};
use super::text::{AnswerText, Bytes, GettersText, List, Said, Text};
use super::window::Window;
use super::words::{NotUnderstood, bytes, lent, mark, number};
use range_buf::RangeBuf;
use recv_buf::RecvBuf;
use refusal::Refusal;
use std::fmt;
use std::fmt::Write;

// The buffer alone. It is good at all times, as its calls ask.
#[derive(Drop)]
struct Receiving {
    buf: RecvBuf,
    ghost good: { Good buf } by { Prim.hlevel recv_props },
}

// The buffer, and how long its arena is.
#[derive(Drop)]
pub struct Receiver {
    receiving: Receiving,
    arena: u64,
}

#[derive(Drop)]
pub enum RecvCall {
    Write {
        off: u64,
        // How many bytes of their room.
        data: u64,
        fin: bool,
        lent: Option<u64>,
    },
    Emit {
        room: u64,
        lent: Option<u64>,
    },
    Discard(u64),
    Reset {
        code: u64,
        size: u64,
    },
    Shutdown,
    Commit {
        now: u64,
    },
    Autotune {
        now: u64,
        rtt: u64,
    },
    AddConsumed(u64),
    LowerBound(u64),
    ReadableLen(u64),
    Get,
}

impl Object for Receiver {
    type Call = RecvCall;

    fn create(
        rooms: &mut Rooms,
        words: &[&str],
    ) -> Result<Result<Receiver, Refusal>, NotUnderstood> {
        match words {
            [limit, maximum, arena] => Ok(Receiver::new(
                rooms,
                number(limit)?,
                number(maximum)?,
                number(arena)?,
            )),
            _ => Err(NotUnderstood),
        }
    }

    fn read(rooms: &mut Rooms, name: &str, words: &[&str]) -> Result<RecvCall, NotUnderstood> {
        Ok(match (name, words) {
            ("write", [off, data, fin, rest @ ..]) => RecvCall::Write {
                off: number(off)?,
                data: bytes(&mut rooms.bytes, data)?,
                fin: mark(fin)?,
                lent: lent(rest)?,
            },
            ("emit", [room, rest @ ..]) => RecvCall::Emit {
                room: number(room)?,
                lent: lent(rest)?,
            },
            ("discard", [n]) => RecvCall::Discard(number(n)?),
            ("reset", [code, size]) => RecvCall::Reset {
                code: number(code)?,
                size: number(size)?,
            },
            ("shutdown", []) => RecvCall::Shutdown,
            ("commit", [now]) => RecvCall::Commit { now: number(now)? },
            ("autotune", [now, rtt]) => RecvCall::Autotune {
                now: number(now)?,
                rtt: number(rtt)?,
            },
            ("fc.add_consumed", [n]) => RecvCall::AddConsumed(number(n)?),
            ("fc.lower_bound", [n]) => RecvCall::LowerBound(number(n)?),
            ("readable_len", [n]) => RecvCall::ReadableLen(number(n)?),
            ("get", []) => RecvCall::Get,
            _ => return Err(NotUnderstood),
        })
    }

    fn call(&mut self, rooms: &mut Rooms, call: RecvCall) -> Said {
        match call {
            RecvCall::Write {
                off,
                data,
                fin,
                lent,
            } => self.write(rooms, off, data, fin, lent),
            RecvCall::Emit { room, lent } => self.emit(rooms, room, lent),
            RecvCall::Discard(n) => self.receiving.discard(n),
            RecvCall::Reset { code, size } => self.receiving.reset(code, size),
            RecvCall::Shutdown => self.receiving.shutdown(),
            RecvCall::Commit { now } => self.receiving.commit(now),
            RecvCall::Autotune { now, rtt } => self.receiving.autotune(now, rtt),
            RecvCall::AddConsumed(n) => self.receiving.add_consumed(n),
            RecvCall::LowerBound(n) => self.receiving.lower_bound(n),
            RecvCall::ReadableLen(n) => Said::Number(self.receiving.buf.readable_len(n)),
            RecvCall::Get => Said::Getters(self.receiving.getters()),
        }
    }

    fn show(&self, rooms: &mut Rooms) -> fmt::Result {
        let kept = self.kept(rooms);
        self.receiving.show(kept, &mut rooms.ours)
    }
}

impl Receiver {
    // A new buffer finds the arena as zeros.
    fn new(rooms: &mut Rooms, limit: u64, maximum: u64, length: u64) -> Result<Receiver, Refusal> {
        let arena = front_mut(&mut rooms.recv, length);
        let receiving = Receiving::new(limit, maximum, arena)?;
        arena.fill(0);
        Ok(Receiver {
            receiving,
            arena: length,
        })
    }

    fn write(
        &mut self,
        rooms: &mut Rooms,
        off: u64,
        data: u64,
        fin: bool,
        lent: Option<u64>,
    ) -> Said {
        let own = front_mut(&mut rooms.recv, self.arena);
        let arena = found(own, &mut rooms.lent, lent);
        self.receiving
            .write(arena, off, front(&rooms.bytes, data), fin)
    }

    fn emit(&mut self, rooms: &mut Rooms, room: u64, lent: Option<u64>) -> Said {
        let own = front_mut(&mut rooms.recv, self.arena);
        let arena = found(own, &mut rooms.lent, lent);
        let out = front_mut(&mut rooms.shown, room);
        let answer = self.receiving.emit(arena, out);
        Said::emitted(answer, out)
    }

    // The bytes that are kept and not yet consumed.
    fn kept(&self, rooms: &mut Rooms) -> Bytes {
        let arena = front(&rooms.recv, self.arena);
        Bytes::of(held(arena, self.receiving.chunks(), false, &mut rooms.shown))
    }
}

// Each method keeps the state that its call leaves. A helper for that would be handed the whole buffer once more, and each method would name
// its own law under `using` all the same.
impl Receiving {
    #[tactic(auto, using(recv_buf::proofs::Kept::created_good))]
    fn new(limit: u64, maximum: u64, arena: &[u8]) -> Result<Receiving, Refusal> {
        let done = RecvBuf::new(limit, maximum, arena);
        done.answer?;
        Ok(Receiving { buf: done.state })
    }

    #[tactic(auto, using(recv_buf::proofs::Kept::written_good))]
    fn write(&mut self, arena: &mut [u8], off: u64, data: &[u8], fin: bool) -> Said {
        let done = self.buf.write(arena, off, data, fin);
        self.buf = done.state;
        done.answer.into()
    }

    #[tactic(auto, using(recv_buf::proofs::Kept::emitted_good))]
    fn emit(&mut self, arena: &[u8], out: &mut [u8]) -> Result<(u64, bool), Refusal> {
        let done = self.buf.emit(arena, out);
        self.buf = done.state;
        done.answer
    }

    #[tactic(auto, using(recv_buf::proofs::Kept::discarded_good))]
    fn discard(&mut self, n: u64) -> Said {
        let done = self.buf.discard(n);
        self.buf = done.state;
        done.answer.into()
    }

    #[tactic(auto, using(recv_buf::proofs::Kept::resets_good))]
    fn reset(&mut self, code: u64, size: u64) -> Said {
        let done = self.buf.reset(code, size);
        self.buf = done.state;
        done.answer.into()
    }

    #[tactic(auto, using(recv_buf::proofs::Kept::shuts_good))]
    fn shutdown(&mut self) -> Said {
        let done = self.buf.shutdown();
        self.buf = done.state;
        done.answer.into()
    }

    #[tactic(auto, using(recv_buf::proofs::Kept::commits_good))]
    fn commit(&mut self, now: u64) -> Said {
        self.buf = self.buf.update_max_data(now);
        Said::Done
    }

    #[tactic(auto, using(recv_buf::proofs::Kept::autotunes_good))]
    fn autotune(&mut self, now: u64, rtt: u64) -> Said {
        self.buf = self.buf.autotune_window(now, rtt);
        Said::Done
    }

    // The calls on the window inside the buffer.
    #[tactic(auto, using(recv_buf::proofs::Kept::flow_back_good))]
    fn add_consumed(&mut self, n: u64) -> Said {
        let mut window = self.window();
        let said = window.add_consumed(n);
        self.buf = self.buf.set_flow_control(window.flow);
        said
    }

    #[tactic(auto, using(recv_buf::proofs::Kept::flow_back_good))]
    fn lower_bound(&mut self, n: u64) -> Said {
        let mut window = self.window();
        let said = window.lower_bound(n);
        self.buf = self.buf.set_flow_control(window.flow);
        said
    }

    // What such a call answers stands in window.rt alone: the buffer's record is taken out, and set back by the caller.
    fn window(&self) -> Window {
        Window {
            flow: self.buf.flow_control(),
        }
    }

    fn getters(&self) -> GettersText {
        let buf = &self.buf;
        let mut text = GettersText::new();
        let _ = write!(
            text,
            "off_front={} max_off={} is_fin={} is_draining={} ready={} max_data={} window={} max_data_next={} readable_len={} almost_full={}",
            buf.off_front(),
            buf.max_off(),
            Text(buf.is_fin()),
            Text(buf.is_draining()),
            Text(buf.ready()),
            buf.max_data(),
            buf.window(),
            buf.max_data_next(),
            buf.readable_len(u64::MAX),
            Text(buf.almost_full())
        );
        text
    }

    fn chunks(&self) -> &[RangeBuf] {
        &self.buf.data[..self.buf.count.min(64)]
    }

    fn show(&self, kept: Bytes, text: &mut AnswerText) -> fmt::Result {
        let buf = &self.buf;
        write!(
            text,
            "chunks={} kept={kept} off={} len={} fin={} err={} drain={} {}",
            List(self.chunks()),
            buf.off,
            buf.len,
            Text(buf.fin_off),
            Text(buf.error),
            Text(buf.drain),
            Text(buf.flow_control)
        )
    }
}

// A run: the channel's slots with the frames in flight, and its two ends, which are the buffers, the connection's window, and the dice.
//
// In each round a frame in flight waits, or comes to the channel's end, where it is lost or arrives; one that arrived may stay, to arrive
// again.
//
// Every frame ends at a multiple of the frame size or at the final size, as docs/OPERATORS.md advises: so with a receive arena of at most 63
// frames the receive table never fills (crate channel, `ends_suffice`).
//
// No slot is held for ever. A frame whose report the sender refuses stays in flight and comes to the end again, where it may still arrive,
// since no channel here loses all. And the byte that the reader waits for is always in flight or the first to be sent: a slot that its loss
// frees is filled with it.
//
// Each call of a buffer hands back a good one: a law of the buffer's own, which the function that makes the call names under `using`.
ghost use Rattle.std.specs.Prelude.{◌≡◌, ◌<◌, ◌≤◌};
ghost use Rattle.send_buf.specs.State.{Good as GoodSend};
ghost use Rattle.recv_buf.specs.State.{Good as GoodRecv};
ghost use Rattle.flowcontrol.specs.State.{Good as GoodFlow};
ghost use Rattle.send_buf.proofs.Props.{send_props};
ghost use Rattle.recv_buf.proofs.Props.{recv_props};

use crate::credit;
use crate::dice::Dice;
use crate::refusals::Call;
use crate::settings::Settings;
use crate::tally::{FinalSizes, Tally};
use crate::window::Window;
use flowcontrol::{FlowControl, lent};
use recv_buf::RecvBuf;
use send_buf::SendBuf;
use std::rt::Clock;

// A frame in flight.
#[derive(Clone, Copy)]
pub struct Frame {
    pub off: u64,
    pub len: usize,
    // Does it carry the end mark?
    pub fin: bool,
    // Does the sender know that it arrived? Then this is a repetition.
    pub known: bool,
    ghost fits: { len ≤ 1200 },
}

// A place in the channel: a frame in flight, or none where it is free, and the room for its bytes.
#[derive(Clone, Copy)]
pub struct Slot {
    pub frame: Option<Frame>,
    pub bytes: [u8; 1200],
}

#[derive(Drop)]
pub struct Run {
    pub ends: Ends,
    pub slots: [Slot; 8],
}

// The two ends of the channel: the buffers and the connection's window, the dice that are thrown for the frames, and what is counted.
#[derive(Drop)]
pub struct Ends {
    pub send: SendBuf,
    pub recv: RecvBuf,
    // The connection's window.
    pub conn: FlowControl,
    pub tally: Tally,
    pub dice: Dice,
    // What the dice are held against, per mille.
    pub loss: u64,
    pub again: u64,
    // The frame size.
    pub size: usize,
    // Is the end mark written?
    pub closed: bool,
    // Is it in flight, or arrived?
    pub marked: bool,
    // Standard input or output failed.
    pub broken: bool,
    // So each call of the buffers and of the window may be made, and a frame fits a slot.
    ghost sender: { GoodSend send } by { Prim.hlevel send_props },
    ghost receiver: { GoodRecv recv } by { Prim.hlevel recv_props },
    ghost connection: { GoodFlow conn },
    ghost some: { 0 < size },
    ghost small: { size ≤ 1200 },
}

impl Run {
    ghost use Rattle.std.specs.List.{list_all};
    ghost use Rattle.carry.specs.Verdict.{is_free, finished};

    pub fn new(rt: &impl Clock, set: Settings, send_arena: &[u8], recv_arena: &[u8]) -> Run {
        Run {
            ends: Ends::new(rt, set, send_arena, recv_arena),
            slots: [Slot {
                frame: None,
                bytes: [0; 1200],
            }; 8],
        }
    }

    // The sender's half of a round: from the input into the channel.
    pub fn outward(&mut self, rt: &(impl Input + Eprint), window: &mut Window, arena: &mut [u8]) {
        self.ends.read(rt, window);
        self.ends.write(arena, window);
        self.load(arena);
    }

    // The receiver's half: from the channel to the output.
    pub fn inward(&mut self, rt: &(impl Print + Eprint + Clock), arena: &mut [u8], out: &mut [u8]) {
        self.roll(arena);
        self.ends.hand_out(rt, arena, out);
        self.ends.grant();
        self.ends.tally.round(rt);
    }

    // Is there something left to do, and hope that it gets done?
    pub fn goes_on(&self) -> bool {
        self.ends.goes_on() && !self.is_done()
    }

    // Has the receiver handed out everything, and is nothing in flight?
    pub fn is_done(&self) -> bool
        ensures { result ≡ finished self.now }
    {
        !self.ends.broken && self.ends.recv.is_fin() && Run::are_free(&self.slots)
    }

    fn are_free(slots: &[Slot]) -> bool
        ensures { result ≡ list_all is_free slots.now }
    {
        slots.iter().all(|slot| slot.frame.is_none())
    }

    // Fills the free slots with frames.
    fn load(&mut self, arena: &[u8]) {
        for slot in &mut self.slots {
            if slot.frame.is_none() {
                slot.frame = self.ends.next_frame(arena, &mut slot.bytes);
            }
        }
    }

    // Throws the dice for each frame in flight.
    fn roll(&mut self, arena: &mut [u8]) {
        for slot in &mut self.slots {
            if let Some(frame) = slot.frame {
                slot.frame = self.ends.moved(frame, arena, &slot.bytes);
            }
        }
    }
}

impl Ends {
    #[tactic(auto, using(send_buf::proofs::Kept::created_good, recv_buf::proofs::Kept::created_good, flowcontrol::proofs::Kept::created_good))]
    fn new(rt: &impl Clock, set: Settings, send_arena: &[u8], recv_arena: &[u8]) -> Ends {
        let room = recv_arena.len() as u64;
        let limit = room.min(8192);
        Ends {
            send: SendBuf::new(limit, send_arena).state,
            recv: RecvBuf::new(limit, room, recv_arena).state,
            conn: FlowControl::new(limit, limit, room).state,
            tally: Tally::new(rt),
            dice: Dice::new(set.seed),
            loss: set.loss,
            again: set.again,
            size: set.frame,
            closed: false,
            marked: false,
            broken: false,
        }
    }

    // Did nothing fail, and is there hope?
    fn goes_on(&self) -> bool {
        !self.broken && !self.is_stuck() && self.tally.idle <= 1_000_000
    }

    // Has the receive table no entry left for the byte that the reader waits for? Then each frame that brings it is refused TableFull, now
    // and ever after (crate channel, `stalled_run`).
    pub fn is_stuck(&self) -> bool {
        self.recv.count >= 64 && !self.recv.ready()
    }

    pub fn final_sizes(&self) -> FinalSizes
        ensures sender { result.sender ≡ self.now.send.fin_off }
        ensures receiver { result.receiver ≡ self.now.recv.fin_off }
    {
        FinalSizes {
            sender: self.send.fin_off,
            receiver: self.recv.fin_off,
        }
    }

    // ---- the input

    fn read(&mut self, rt: &(impl Input + Eprint), window: &mut Window) {
        if window.refill(rt).is_err() {
            let _ = eprintln!(rt; "carry: standard input cannot be read");
            self.broken = true;
        }
    }

    // Writes what the send buffer takes of a filled window, and at the input's end no bytes with the mark.
    #[tactic(auto, using(send_buf::proofs::Kept::written_good))]
    fn write(&mut self, arena: &mut [u8], window: &mut Window) {
        if self.closed || !window.is_filled() {
            return;
        }
        let input = window.waiting();
        let fin = input.is_empty();
        let out = self.send.write(arena, input, fin);
        self.send = out.state;
        match out.answer {
            Ok(n) => {
                let n = input.len().min(n as usize);
                self.tally.taken.add(&input[..n]);
                self.closed = fin;
                window.pass(n);
            }
            Err(why) => self.tally.refused(Call::Write, why),
        }
    }

    // ---- the channel

    // The next frame, or none where a part of it is not written yet, or where it need not be sent: with bytes it must, and without if it
    // carries the mark for the first time.
    #[tactic(auto, using(send_buf::proofs::Kept::emitted_good))]
    fn next_frame(&mut self, arena: &[u8], bytes: &mut [u8; 1200]) -> Option<Frame> {
        let off = self.send.off_front();
        let room = self.room_at(off);
        if !self.closed && self.send.off_back().saturating_sub(off) < room as u64 {
            return None;
        }
        let out = self.send.emit(arena, &mut bytes[..room]);
        self.send = out.state;
        match out.answer {
            Ok((n, fin)) if n > 0 || fin && !self.marked => {
                self.tally.sent = self.tally.sent.saturating_add(1);
                self.marked |= fin;
                Some(Frame {
                    off,
                    len: room.min(n as usize),
                    fin,
                    known: false,
                })
            }
            Ok(_) => None,
            Err(why) => {
                self.tally.refused(Call::Other, why);
                None
            }
        }
    }

    // How far it is from `off` to the next multiple of the frame size.
    fn room_at(&self, off: u64) -> usize
        ensures { result ≤ 1200 }
    {
        self.size - (off % self.size as u64) as usize
    }

    // A frame waits, or comes to the channel's end, and is lost there or arrives. What stays of it in flight is the result, here and below.
    fn moved(&mut self, frame: Frame, arena: &mut [u8], bytes: &[u8; 1200]) -> Option<Frame> {
        if self.dice.per_mille() < 500 {
            return Some(frame);
        }
        if self.dice.per_mille() < self.loss {
            return self.lost(frame);
        }
        self.delivered(frame, arena, &bytes[..frame.len])
    }

    // A frame arrives. One that is refused is as good as lost.
    #[tactic(auto, using(recv_buf::proofs::Kept::written_good))]
    fn delivered(&mut self, frame: Frame, arena: &mut [u8], bytes: &[u8]) -> Option<Frame> {
        let out = self.recv.write(arena, frame.off, bytes, frame.fin);
        self.recv = out.state;
        if let Err(why) = out.answer {
            self.tally.refused(Call::Frame, why);
            return self.lost(frame);
        }
        self.arrived(frame)
    }

    // A frame arrived: the sender is told, and the dice say whether it will arrive again. Where the sender refuses, the frame stays.
    #[tactic(auto, using(send_buf::proofs::Kept::ack_drops_good))]
    fn arrived(&mut self, mut frame: Frame) -> Option<Frame> {
        if frame.known {
            return None;
        }
        let out = self.send.ack_and_drop(frame.off, frame.len as u64);
        self.send = out.state;
        if let Err(why) = out.answer {
            self.tally.refused(Call::Ack, why);
            return Some(frame);
        }
        if self.dice.per_mille() < self.again {
            self.tally.repeated = self.tally.repeated.saturating_add(1);
            frame.known = true;
            return Some(frame);
        }
        None
    }

    // A frame is lost: the sender is told, unless it knows of an earlier arrival. Where it refuses, the frame stays.
    #[tactic(auto, using(send_buf::proofs::Kept::retransmits_good))]
    fn lost(&mut self, frame: Frame) -> Option<Frame> {
        if frame.known {
            return None;
        }
        let out = self.send.retransmit(frame.off, frame.len as u64);
        self.send = out.state;
        if let Err(why) = out.answer {
            self.tally.refused(Call::Loss, why);
            return Some(frame);
        }
        self.marked &= !frame.fin;
        self.tally.lost = self.tally.lost.saturating_add(1);
        None
    }

    // ---- the output

    // Hands out what is ready, to standard output.
    #[tactic(auto, using(recv_buf::proofs::Kept::emitted_good))]
    fn hand_out(&mut self, rt: &(impl Print + Eprint), arena: &[u8], room: &mut [u8]) {
        if !self.recv.ready() {
            return;
        }
        let out = self.recv.emit(arena, room);
        self.recv = out.state;
        match out.answer {
            Ok((n, _)) => self.give(rt, &room[..room.len().min(n as usize)]),
            Err(why) => self.tally.refused(Call::Other, why),
        }
    }

    // The connection's window counts what was handed out, as the receive buffer has in the stream's.
    fn give(&mut self, rt: &(impl Print + Eprint), bytes: &[u8]) {
        if let Err(why) = lent::consume(&mut self.conn, bytes.len() as u64) {
            self.tally.refused(Call::Other, why);
        }
        self.tally.gave(bytes);
        self.broken = rt.write_all(bytes).is_err();
        if self.broken {
            let _ = eprintln!(rt; "carry: standard output cannot be written");
        }
    }

    // Raises the limit where it is due: both windows are renewed, and the sender is granted the lesser of the two limits. Time is counted in
    // rounds, of which a round trip takes four.
    #[tactic(auto, using(send_buf::proofs::Kept::raised_limit_good))]
    fn grant(&mut self) {
        if !self.is_due() {
            return;
        }
        let now = self.tally.rounds;
        let stream = credit::commit(&mut self.recv, now, 4);
        let connection = credit::renew(&mut self.conn, now, 4);
        let out = self.send.update_max_data(stream.min(connection));
        self.send = out.state;
        if let Err(why) = out.answer {
            self.tally.refused(Call::Other, why);
        }
    }

    // Does the receiver find the limit almost used up, or has the sender used it up where more could be had?
    fn is_due(&self) -> bool {
        self.recv.almost_full()
            || self.send.off_back() >= self.send.max_off()
                && self.recv.max_data() < self.recv.max_data_next()
    }
}

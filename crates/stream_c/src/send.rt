// The send buffer, for C. Its arena is lent to the calls that read or write stream bytes, and is always the one of its creation.
ghost use Rattle.std.specs.Prelude.{◌≡◌, eqb, length};
ghost use Rattle.refusal.specs.Rules.{told_count, known, is_at};
ghost use Rattle.send_buf.specs.State.{Good, view_of};
ghost use Rattle.send_buf.specs.Rules.{created, written, written_arena, emitted, emitted_out, raised, blocked_with, acks, ack_drops, retransmits, resets, stops, shuts, front, is_complete, ack_off, cap};
ghost use Rattle.stream_c.specs.State.{option_of, vk_number, padded, send_of, vk_send};
ghost use Rattle.stream_c.specs.Rules.{send_by, send_out, send_count, send_emit, send_sizes};

use super::{VkAnswer, VkNumber};
use range_buf::RangeBuf;
use ranges::RangeSet;
use refusal::{Outcome, Values};
use send_buf::SendBuf;

#[repr(C)]
#[derive(Clone, Copy)]
pub struct VkSendBuf {
    // The chunks, in the first `count` places, by offset; zero behind them.
    pub data: [RangeBuf; 64],
    pub count: usize,
    // The index of the chunk to send next.
    pub pos: usize,
    // The end of what was written.
    pub off: u64,
    // The largest offset that was sent.
    pub emit_off: u64,
    // The bytes that are still to be sent, for the first time or again.
    pub buffered_bytes: u64,
    // How far the peer lets us send.
    pub max_data: u64,
    pub blocked_at: VkNumber,
    // The final size, once known.
    pub fin_off: VkNumber,
    pub shutdown: bool,
    pub acked: RangeSet,
    // The code of a stop.
    pub error: VkNumber,
    // The length of the arena that the buffer was created with.
    pub arena_len: usize,
}

// The buffer after a call, and what the call answered.
#[repr(C)]
#[derive(Clone, Copy)]
pub struct VkSendBufOut {
    pub buf: VkSendBuf,
    pub answer: VkAnswer,
}

// A buffer with nothing written, for an arena of the length of this one. BadSetup; the buffer that comes back then refuses every arena.
#[unsafe(no_mangle)]
pub extern "C" fn vk_send_buf_new(max_data: u64, arena: &[u8]) -> VkSendBufOut
    ensures { result ≡ send_out (created max_data (length arena.now)) }
{
    SendBuf::new(max_data, arena).into()
}

// Accepts bytes, and keeps them in the arena; answers how many. BadSetup, Stopped, FinalSize, NoRoom.
#[unsafe(no_mangle)]
pub extern "C" fn vk_send_buf_write(
    buf: VkSendBuf,
    arena: &mut [u8],
    input: &[u8],
    fin: bool,
) -> VkSendBufOut
    requires { Good (send_of buf) }
    ensures value { result ≡ send_count (written (view_of (send_of buf)) (length arena.old) (length input.now) fin) }
    ensures arena_after { arena.new ≡ written_arena (view_of (send_of buf)) arena.old input.now fin }
{
    SendBuf::from(buf).write(arena, input, fin).into()
}

// Copies out the bytes from the front offset on; answers how many, and whether they reach the final size. BadSetup.
#[unsafe(no_mangle)]
pub extern "C" fn vk_send_buf_emit(buf: VkSendBuf, arena: &[u8], out: &mut [u8]) -> VkSendBufOut
    requires { Good (send_of buf) }
    ensures value { result ≡ send_emit (emitted (view_of (send_of buf)) (length arena.now) (length out.old)) }
    ensures out_after { out.new ≡ emitted_out (view_of (send_of buf)) arena.now out.old }
{
    SendBuf::from(buf).emit(arena, out).into()
}

// Raises the limit; a smaller one has no effect. Offset.
#[unsafe(no_mangle)]
pub extern "C" fn vk_send_buf_update_max_data(buf: VkSendBuf, max_data: u64) -> VkSendBufOut
    requires { Good (send_of buf) }
    ensures { result ≡ send_out (raised (view_of (send_of buf)) max_data) }
{
    SendBuf::from(buf).update_max_data(max_data).into()
}

// Records the offset at which the stream was last blocked, or, with `known` false, that it is not: C's form of a number that may be missing.
#[unsafe(no_mangle)]
pub extern "C" fn vk_send_buf_update_blocked_at(
    buf: VkSendBuf,
    known: bool,
    value: u64,
) -> VkSendBuf
    requires { Good (send_of buf) }
    ensures { result ≡ vk_send (blocked_with (view_of (send_of buf)) (option_of (record { known = known; value = value }))) }
{
    SendBuf::from(buf)
        .update_blocked_at(VkNumber { known, value }.into())
        .into()
}

// The offset at which the stream was last blocked.
#[unsafe(no_mangle)]
pub extern "C" fn vk_send_buf_blocked_at(buf: VkSendBuf) -> VkNumber
    ensures { result ≡ vk_number (view_of (send_of buf)).blocked }
{
    SendBuf::from(buf).blocked_at().into()
}

// The range joins the acked set. NeverSent, TableFull.
#[unsafe(no_mangle)]
pub extern "C" fn vk_send_buf_ack(buf: VkSendBuf, off: u64, len: u64) -> VkSendBufOut
    requires { Good (send_of buf) }
    ensures { result ≡ send_out (acks (view_of (send_of buf)) off len) }
{
    SendBuf::from(buf).ack(off, len).into()
}

// The same, and drops what lies below contiguous ack; answers how many of the dropped bytes were still to be sent. NeverSent, TableFull.
#[unsafe(no_mangle)]
pub extern "C" fn vk_send_buf_ack_and_drop(buf: VkSendBuf, off: u64, len: u64) -> VkSendBufOut
    requires { Good (send_of buf) }
    ensures { result ≡ send_count (ack_drops (view_of (send_of buf)) off len) }
{
    SendBuf::from(buf).ack_and_drop(off, len).into()
}

// The range was lost: it is to be sent again. Answers how many bytes that puts back. NeverSent, TableFull.
#[unsafe(no_mangle)]
pub extern "C" fn vk_send_buf_retransmit(buf: VkSendBuf, off: u64, len: u64) -> VkSendBufOut
    requires { Good (send_of buf) }
    ensures { result ≡ send_count (retransmits (view_of (send_of buf)) off len) }
{
    SendBuf::from(buf).retransmit(off, len).into()
}

// Ends the stream where it was sent to, and drops what it holds. Answers the largest offset that was sent, and how many bytes never were.
#[unsafe(no_mangle)]
pub extern "C" fn vk_send_buf_reset(buf: VkSendBuf) -> VkSendBufOut
    requires { Good (send_of buf) }
    ensures { result ≡ send_sizes (resets (view_of (send_of buf))) }
{
    SendBuf::from(buf).reset().into()
}

// The peer asks to stop: resets the stream and records the code. Done.
#[unsafe(no_mangle)]
pub extern "C" fn vk_send_buf_stop(buf: VkSendBuf, code: u64) -> VkSendBufOut
    requires { Good (send_of buf) }
    ensures { result ≡ send_sizes (stops (view_of (send_of buf)) code) }
{
    SendBuf::from(buf).stop(code).into()
}

// Resets the stream, and sends no more. Done.
#[unsafe(no_mangle)]
pub extern "C" fn vk_send_buf_shutdown(buf: VkSendBuf) -> VkSendBufOut
    requires { Good (send_of buf) }
    ensures { result ≡ send_sizes (shuts (view_of (send_of buf))) }
{
    SendBuf::from(buf).shutdown().into()
}

// The end of what was written.
#[unsafe(no_mangle)]
pub extern "C" fn vk_send_buf_off_back(buf: VkSendBuf) -> u64
    ensures { result ≡ (view_of (send_of buf)).off }
{
    SendBuf::from(buf).off_back()
}

// The offset of the first byte to be sent next, or the end of what was written.
#[unsafe(no_mangle)]
pub extern "C" fn vk_send_buf_off_front(buf: VkSendBuf) -> u64
    requires { Good (send_of buf) }
    ensures { result ≡ front (view_of (send_of buf)) }
{
    SendBuf::from(buf).off_front()
}

// How far the peer lets us send.
#[unsafe(no_mangle)]
pub extern "C" fn vk_send_buf_max_off(buf: VkSendBuf) -> u64
    ensures { result ≡ (view_of (send_of buf)).limit }
{
    SendBuf::from(buf).max_off()
}

// Is everything written, up to the final size?
#[unsafe(no_mangle)]
pub extern "C" fn vk_send_buf_is_fin(buf: VkSendBuf) -> bool
    ensures { result ≡ is_at (view_of (send_of buf)).fin (view_of (send_of buf)).off }
{
    SendBuf::from(buf).is_fin()
}

// Is everything acked, up to the final size?
#[unsafe(no_mangle)]
pub extern "C" fn vk_send_buf_is_complete(buf: VkSendBuf) -> bool
    requires { Good (send_of buf) }
    ensures { result ≡ is_complete (view_of (send_of buf)) }
{
    SendBuf::from(buf).is_complete()
}

// Was the stream stopped by the peer?
#[unsafe(no_mangle)]
pub extern "C" fn vk_send_buf_is_stopped(buf: VkSendBuf) -> bool
    ensures { result ≡ known (view_of (send_of buf)).error }
{
    SendBuf::from(buf).is_stopped()
}

#[unsafe(no_mangle)]
pub extern "C" fn vk_send_buf_is_shutdown(buf: VkSendBuf) -> bool
    ensures { result ≡ (view_of (send_of buf)).shut }
{
    SendBuf::from(buf).is_shutdown()
}

// Are there no chunks?
#[unsafe(no_mangle)]
pub extern "C" fn vk_send_buf_is_empty(buf: VkSendBuf) -> bool
    requires { Good (send_of buf) }
    ensures { result ≡ eqb (length (view_of (send_of buf)).chunks) 0 }
{
    SendBuf::from(buf).is_empty()
}

// Contiguous ack: the end of the acked range that starts at 0, else 0.
#[unsafe(no_mangle)]
pub extern "C" fn vk_send_buf_ack_off(buf: VkSendBuf) -> u64
    requires { Good (send_of buf) }
    ensures { result ≡ ack_off (view_of (send_of buf)).acked }
{
    SendBuf::from(buf).ack_off()
}

// What the limit leaves. Stopped.
#[unsafe(no_mangle)]
pub extern "C" fn vk_send_buf_cap(buf: VkSendBuf) -> VkAnswer
    requires { Good (send_of buf) }
    ensures { result ≡ padded (told_count (cap (view_of (send_of buf)))) }
{
    SendBuf::from(buf).cap().into()
}

// How many chunks there are.
#[unsafe(no_mangle)]
pub extern "C" fn vk_send_buf_bufs_count(buf: VkSendBuf) -> usize
    requires { Good (send_of buf) }
    ensures { result ≡ length (view_of (send_of buf)).chunks }
{
    SendBuf::from(buf).bufs_count()
}

// How many bytes are still to be sent, for the first time or again.
#[unsafe(no_mangle)]
pub extern "C" fn vk_send_buf_buffered_bytes(buf: VkSendBuf) -> u64
    ensures { result ≡ (view_of (send_of buf)).buffered }
{
    SendBuf::from(buf).buffered_bytes()
}

impl From<VkSendBuf> for SendBuf {
    ghost from_gives = { λ b r. r ≡ send_of b };

    #[tactic(auto, unfolding(crate::specs::State::send_of))]
    fn from(vk: VkSendBuf) -> SendBuf {
        // In a variable first: the borrow checker does not cover an array field that goes straight from one struct into another's literal.
        let data = vk.data;
        SendBuf {
            data,
            count: vk.count,
            pos: vk.pos,
            off: vk.off,
            emit_off: vk.emit_off,
            buffered_bytes: vk.buffered_bytes,
            max_data: vk.max_data,
            blocked_at: vk.blocked_at.into(),
            fin_off: vk.fin_off.into(),
            shutdown: vk.shutdown,
            acked: vk.acked,
            error: vk.error.into(),
            arena_len: vk.arena_len,
        }
    }
}

impl From<SendBuf> for VkSendBuf {
    ghost from_gives = { λ b r. r ≡ vk_send b };

    #[tactic(auto, unfolding(crate::specs::State::vk_send))]
    fn from(buf: SendBuf) -> VkSendBuf {
        // In a variable first: the borrow checker does not cover an array field that goes straight from one struct into another's literal.
        let data = buf.data;
        VkSendBuf {
            data,
            count: buf.count,
            pos: buf.pos,
            off: buf.off,
            emit_off: buf.emit_off,
            buffered_bytes: buf.buffered_bytes,
            max_data: buf.max_data,
            blocked_at: buf.blocked_at.into(),
            fin_off: buf.fin_off.into(),
            shutdown: buf.shutdown,
            acked: buf.acked,
            error: buf.error.into(),
            arena_len: buf.arena_len,
        }
    }
}

impl<T: Values> From<Outcome<T, SendBuf>> for VkSendBufOut {
    ghost from_gives = { λ o r. r ≡ send_by T.values o };

    #[tactic(auto, unfolding(crate::specs::Rules::send_by))]
    fn from(out: Outcome<T, SendBuf>) -> VkSendBufOut {
        VkSendBufOut {
            buf: out.state.into(),
            answer: out.answer.into(),
        }
    }
}

// The receive buffer, for C. Its arena is lent to the calls that read or write stream bytes, and is always the one of its creation.
ghost use Rattle.std.specs.Prelude.{◌≡◌, length};
ghost use Rattle.flowcontrol.specs.State.{Good as GoodFlow};
ghost use Rattle.flowcontrol.specs.Rules.{next};
ghost use Rattle.recv_buf.specs.State.{Good, view_of};
ghost use Rattle.recv_buf.specs.Rules.{created, written, written_arena, emitted, emitted_out, discarded, resets, shuts, commits, autotunes, flow_back, almost_full, is_ready, readable};
ghost use Rattle.stream_c.specs.State.{flow_of, vk_flow, recv_of, vk_recv};
ghost use Rattle.stream_c.specs.Rules.{recv_by, recv_out, recv_count, recv_emit, recv_sizes};
ghost use Rattle.refusal.specs.Rules.{is_at};

use super::{VkAnswer, VkFlowControl, VkNumber};
use range_buf::RangeBuf;
use recv_buf::RecvBuf;
use refusal::{Outcome, Values};

#[repr(C)]
#[derive(Clone, Copy)]
pub struct VkRecvBuf {
    // The chunks, in the first `count` places, by offset; zero behind them.
    pub data: [RangeBuf; 64],
    pub count: usize,
    // How far was handed out.
    pub off: u64,
    // The highest end seen.
    pub len: u64,
    pub flow_control: VkFlowControl,
    // The final size, once known.
    pub fin_off: VkNumber,
    // The code of a reset.
    pub error: VkNumber,
    // Frames are judged and not kept: the buffer was shut down.
    pub drain: bool,
    // The length of the arena that the buffer was created with.
    pub arena_len: usize,
}

// The buffer after a call, and what the call answered.
#[repr(C)]
#[derive(Clone, Copy)]
pub struct VkRecvBufOut {
    pub buf: VkRecvBuf,
    pub answer: VkAnswer,
}

// A buffer that saw nothing, for an arena of the length of this one. BadSetup; the buffer that comes back then refuses every arena.
#[unsafe(no_mangle)]
pub extern "C" fn vk_recv_buf_new(max_data: u64, max_window: u64, arena: &[u8]) -> VkRecvBufOut
    ensures { result ≡ recv_out (created max_data max_window (length arena.now)) }
{
    RecvBuf::new(max_data, max_window, arena).into()
}

// Takes a frame of bytes at `off`, marked as the end or not. BadSetup, Offset, FlowControl, FinalSize, NoRoom, TableFull.
#[unsafe(no_mangle)]
pub extern "C" fn vk_recv_buf_write(
    buf: VkRecvBuf,
    arena: &mut [u8],
    off: u64,
    input: &[u8],
    fin: bool,
) -> VkRecvBufOut
    requires { Good (recv_of buf) }
    ensures value { result ≡ recv_out (written (view_of (recv_of buf)) (length arena.old) off (length input.now) fin) }
    ensures arena_after { arena.new ≡ written_arena (view_of (recv_of buf)) arena.old off input.now fin }
{
    RecvBuf::from(buf).write(arena, off, input, fin).into()
}

// Hands out up to as many bytes as `out` has; answers how many, and whether they reach the final size. BadSetup, Done, Reset, Offset.
#[unsafe(no_mangle)]
pub extern "C" fn vk_recv_buf_emit(buf: VkRecvBuf, arena: &[u8], out: &mut [u8]) -> VkRecvBufOut
    requires { Good (recv_of buf) }
    ensures value { result ≡ recv_emit (emitted (view_of (recv_of buf)) (length arena.now) (length out.old)) }
    ensures out_after { out.new ≡ emitted_out (view_of (recv_of buf)) arena.now out.old }
{
    RecvBuf::from(buf).emit(arena, out).into()
}

// The same with no output, for up to `len` bytes. Done, Reset, Offset.
#[unsafe(no_mangle)]
pub extern "C" fn vk_recv_buf_discard(buf: VkRecvBuf, len: u64) -> VkRecvBufOut
    requires { Good (recv_of buf) }
    ensures { result ≡ recv_emit (discarded (view_of (recv_of buf)) len) }
{
    RecvBuf::from(buf).discard(len).into()
}

// The stream was reset at `size` with `code`; answers how far that is above the highest end, and above what was handed out.
// Offset, FinalSize, FlowControl.
#[unsafe(no_mangle)]
pub extern "C" fn vk_recv_buf_reset(buf: VkRecvBuf, code: u64, size: u64) -> VkRecvBufOut
    requires { Good (recv_of buf) }
    ensures { result ≡ recv_sizes (resets (view_of (recv_of buf)) code size) }
{
    RecvBuf::from(buf).reset(code, size).into()
}

// Nothing more will be read: answers how much is given up. Done.
#[unsafe(no_mangle)]
pub extern "C" fn vk_recv_buf_shutdown(buf: VkRecvBuf) -> VkRecvBufOut
    requires { Good (recv_of buf) }
    ensures { result ≡ recv_count (shuts (view_of (recv_of buf))) }
{
    RecvBuf::from(buf).shutdown().into()
}

// Commits the next limit.
#[unsafe(no_mangle)]
pub extern "C" fn vk_recv_buf_update_max_data(buf: VkRecvBuf, now: u64) -> VkRecvBuf
    requires { Good (recv_of buf) }
    ensures { result ≡ vk_recv (commits (view_of (recv_of buf)) now) }
{
    RecvBuf::from(buf).update_max_data(now).into()
}

// The limit that a commit would set.
#[unsafe(no_mangle)]
pub extern "C" fn vk_recv_buf_max_data_next(buf: VkRecvBuf) -> u64
    requires { Good (recv_of buf) }
    ensures { result ≡ next (recv_of buf).flow_control }
{
    RecvBuf::from(buf).max_data_next()
}

// The limit that frames are held to.
#[unsafe(no_mangle)]
pub extern "C" fn vk_recv_buf_max_data(buf: VkRecvBuf) -> u64
    ensures { result ≡ (recv_of buf).flow_control.max_data }
{
    RecvBuf::from(buf).max_data()
}

#[unsafe(no_mangle)]
pub extern "C" fn vk_recv_buf_window(buf: VkRecvBuf) -> u64
    ensures { result ≡ (recv_of buf).flow_control.window }
{
    RecvBuf::from(buf).window()
}

// Doubles the window, up to its maximum, where the last commit is less than two round trips ago.
#[unsafe(no_mangle)]
pub extern "C" fn vk_recv_buf_autotune_window(buf: VkRecvBuf, now: u64, rtt: u64) -> VkRecvBuf
    requires { Good (recv_of buf) }
    ensures { result ≡ vk_recv (autotunes (view_of (recv_of buf)) now rtt) }
{
    RecvBuf::from(buf).autotune_window(now, rtt).into()
}

// How far was handed out.
#[unsafe(no_mangle)]
pub extern "C" fn vk_recv_buf_off_front(buf: VkRecvBuf) -> u64
    ensures { result ≡ (recv_of buf).off }
{
    RecvBuf::from(buf).off_front()
}

// Is an update of the limit due, and the final size not known?
#[unsafe(no_mangle)]
pub extern "C" fn vk_recv_buf_almost_full(buf: VkRecvBuf) -> bool
    ensures { result ≡ almost_full (view_of (recv_of buf)) }
{
    RecvBuf::from(buf).almost_full()
}

// The highest end seen.
#[unsafe(no_mangle)]
pub extern "C" fn vk_recv_buf_max_off(buf: VkRecvBuf) -> u64
    ensures { result ≡ (recv_of buf).len }
{
    RecvBuf::from(buf).max_off()
}

// Was everything handed out, up to the final size?
#[unsafe(no_mangle)]
pub extern "C" fn vk_recv_buf_is_fin(buf: VkRecvBuf) -> bool
    ensures { result ≡ is_at (recv_of buf).fin_off (recv_of buf).off }
{
    RecvBuf::from(buf).is_fin()
}

// Was the buffer shut down?
#[unsafe(no_mangle)]
pub extern "C" fn vk_recv_buf_is_draining(buf: VkRecvBuf) -> bool
    ensures { result ≡ (recv_of buf).drain }
{
    RecvBuf::from(buf).is_draining()
}

// Does the first chunk start at what is handed out next? An empty one tells of the end, or of a reset.
#[unsafe(no_mangle)]
pub extern "C" fn vk_recv_buf_ready(buf: VkRecvBuf) -> bool
    requires { Good (recv_of buf) }
    ensures { result ≡ is_ready (view_of (recv_of buf)).chunks (recv_of buf).off }
{
    RecvBuf::from(buf).ready()
}

// How many bytes can be handed out, up to `max_len`.
#[unsafe(no_mangle)]
pub extern "C" fn vk_recv_buf_readable_len(buf: VkRecvBuf, max_len: u64) -> u64
    requires { Good (recv_of buf) }
    ensures { result ≡ readable (view_of (recv_of buf)) max_len }
{
    RecvBuf::from(buf).readable_len(max_len)
}

// The window record, to be lent to the caller's loop.
#[unsafe(no_mangle)]
pub extern "C" fn vk_recv_buf_flow_control(buf: VkRecvBuf) -> VkFlowControl
    ensures { result ≡ vk_flow (recv_of buf).flow_control }
{
    RecvBuf::from(buf).flow_control().into()
}

// The window record, taken back.
#[unsafe(no_mangle)]
pub extern "C" fn vk_recv_buf_set_flow_control(buf: VkRecvBuf, flow: VkFlowControl) -> VkRecvBuf
    requires good { Good (recv_of buf) }
    requires good_flow { GoodFlow (flow_of flow) }
    ensures { result ≡ vk_recv (flow_back (view_of (recv_of buf)) (flow_of flow)) }
{
    RecvBuf::from(buf).set_flow_control(flow.into()).into()
}

impl From<VkRecvBuf> for RecvBuf {
    ghost from_gives = { λ b r. r ≡ recv_of b };

    #[tactic(auto, unfolding(crate::specs::State::recv_of))]
    fn from(vk: VkRecvBuf) -> RecvBuf {
        // In a variable first: the borrow checker does not cover an array field that goes straight from one struct into another's literal.
        let data = vk.data;
        RecvBuf {
            data,
            count: vk.count,
            off: vk.off,
            len: vk.len,
            flow_control: vk.flow_control.into(),
            fin_off: vk.fin_off.into(),
            error: vk.error.into(),
            drain: vk.drain,
            arena_len: vk.arena_len,
        }
    }
}

impl From<RecvBuf> for VkRecvBuf {
    ghost from_gives = { λ b r. r ≡ vk_recv b };

    #[tactic(auto, unfolding(crate::specs::State::vk_recv))]
    fn from(buf: RecvBuf) -> VkRecvBuf {
        // In a variable first: the borrow checker does not cover an array field that goes straight from one struct into another's literal.
        let data = buf.data;
        VkRecvBuf {
            data,
            count: buf.count,
            off: buf.off,
            len: buf.len,
            flow_control: buf.flow_control.into(),
            fin_off: buf.fin_off.into(),
            error: buf.error.into(),
            drain: buf.drain,
            arena_len: buf.arena_len,
        }
    }
}

impl<T: Values> From<Outcome<T, RecvBuf>> for VkRecvBufOut {
    ghost from_gives = { λ o r. r ≡ recv_by T.values o };

    #[tactic(auto, unfolding(crate::specs::Rules::recv_by))]
    fn from(out: Outcome<T, RecvBuf>) -> VkRecvBufOut {
        VkRecvBufOut {
            buf: out.state.into(),
            answer: out.answer.into(),
        }
    }
}

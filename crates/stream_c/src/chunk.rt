// One chunk, for C. A chunk holds numbers only, so it goes over as it is.
ghost use Rattle.std.specs.Prelude.{◌≡◌};
ghost use Rattle.range_buf.specs.State.{Good};
ghost use Rattle.range_buf.specs.Rules.{start, end, avail, is_empty, created, consumed, split};
ghost use Rattle.stream_c.specs.Rules.{chunk_out, split_out};

use super::VkAnswer;
use range_buf::{RangeBuf, ZERO};
use refusal::Outcome;

// The chunk after a call, and what the call answered.
#[repr(C)]
#[derive(Clone, Copy)]
pub struct VkRangeBufOut {
    pub buf: RangeBuf,
    pub answer: VkAnswer,
}

// The chunk after a split, which is its left part, the right part, and what the split answered. No right part: an empty chunk at 0, since C
// can hold no `Option`.
#[repr(C)]
#[derive(Clone, Copy)]
pub struct VkSplitOut {
    pub buf: RangeBuf,
    pub right: RangeBuf,
    pub answer: VkAnswer,
}

// A chunk of `len` bytes at `off`, none consumed. Offset.
#[unsafe(no_mangle)]
pub extern "C" fn vk_range_buf_from(off: u64, len: u64) -> VkRangeBufOut
    ensures { result ≡ chunk_out (created off len) }
{
    RangeBuf::from(off, len).into()
}

// The offset of the first byte that is not consumed.
#[unsafe(no_mangle)]
pub extern "C" fn vk_range_buf_off(buf: RangeBuf) -> u64
    requires { Good buf }
    ensures { result ≡ start buf }
{
    buf.off()
}

// The offset behind the last byte.
#[unsafe(no_mangle)]
pub extern "C" fn vk_range_buf_max_off(buf: RangeBuf) -> u64
    requires { Good buf }
    ensures { result ≡ end buf }
{
    buf.max_off()
}

// How many bytes are not consumed.
#[unsafe(no_mangle)]
pub extern "C" fn vk_range_buf_len(buf: RangeBuf) -> u64
    requires { Good buf }
    ensures { result ≡ avail buf }
{
    buf.len()
}

#[unsafe(no_mangle)]
pub extern "C" fn vk_range_buf_is_empty(buf: RangeBuf) -> bool
    requires { Good buf }
    ensures { result ≡ is_empty buf }
{
    buf.is_empty()
}

// Consumes `count` bytes more. Offset.
#[unsafe(no_mangle)]
pub extern "C" fn vk_range_buf_consume(buf: RangeBuf, count: u64) -> VkRangeBufOut
    requires { Good buf }
    ensures { result ≡ chunk_out (consumed buf count) }
{
    buf.consume(count).into()
}

// Splits the chunk behind its first `at` bytes. Offset.
#[unsafe(no_mangle)]
pub extern "C" fn vk_range_buf_split_off(buf: RangeBuf, at: u64) -> VkSplitOut
    requires { Good buf }
    ensures { result ≡ split_out (split buf at) }
{
    buf.split_off(at).into()
}

impl From<Outcome<(), RangeBuf>> for VkRangeBufOut {
    ghost from_gives = { λ o r. r ≡ chunk_out o };

    #[tactic(auto, unfolding(crate::specs::Rules::chunk_out))]
    fn from(out: Outcome<(), RangeBuf>) -> VkRangeBufOut {
        VkRangeBufOut {
            buf: out.state,
            answer: out.answer.into(),
        }
    }
}

impl From<Outcome<RangeBuf, RangeBuf>> for VkSplitOut {
    ghost from_gives = { λ o r. r ≡ split_out o };

    #[tactic(auto, unfolding(crate::specs::Rules::split_out))]
    fn from(out: Outcome<RangeBuf, RangeBuf>) -> VkSplitOut {
        VkSplitOut {
            buf: out.state,
            right: out.answer.unwrap_or(ZERO),
            answer: out.answer.map(|_| ()).into(),
        }
    }
}

// The range set, for C. It holds numbers only, so it goes over as it is; a range that a call takes is its start and its end.
ghost use Rattle.std.specs.Prelude.{◌≡◌, length};
ghost use Rattle.ranges.specs.State.{Good, ranges, upto};
ghost use Rattle.ranges.specs.Rules.{created, member_of, range_at, last_of, is_single, inserted, tried, pushed, removed};
ghost use Rattle.stream_c.specs.State.{vk_number};
ghost use Rattle.stream_c.specs.Rules.{set_out, range_out};

use super::{VkAnswer, VkNumber};
use ranges::{Range, RangeSet};
use refusal::Outcome;

// The set after a call, and what the call answered.
#[repr(C)]
#[derive(Clone, Copy)]
pub struct VkRangeSetOut {
    pub set: RangeSet,
    pub answer: VkAnswer,
}

// A range, where there is one; 0..0 where there is none. A flag beside it, as C needs it.
#[repr(C)]
#[derive(Clone, Copy)]
pub struct VkRangeOut {
    pub range: Range,
    pub known: bool,
}

// The empty set. BadSetup; the set that comes back then is empty and has capacity 1.
#[unsafe(no_mangle)]
pub extern "C" fn vk_range_set_new(capacity: usize) -> VkRangeSetOut
    ensures { result ≡ set_out (created capacity) }
{
    RangeSet::new(capacity).into()
}

// How many ranges there are.
#[unsafe(no_mangle)]
pub extern "C" fn vk_range_set_len(set: RangeSet) -> usize
    requires { Good set }
    ensures { result ≡ length (ranges set) }
{
    set.len()
}

#[unsafe(no_mangle)]
pub extern "C" fn vk_range_set_contains(set: RangeSet, item: u64) -> bool
    requires { Good set }
    ensures { result ≡ member_of item (ranges set) }
{
    set.contains(item)
}

// The range at index i, from the lowest on.
#[unsafe(no_mangle)]
pub extern "C" fn vk_range_set_get(set: RangeSet, i: usize) -> VkRangeOut
    requires { Good set }
    ensures { result ≡ range_out (range_at i (ranges set)) }
{
    set.get(i).into()
}

// The number before the end of the highest range.
#[unsafe(no_mangle)]
pub extern "C" fn vk_range_set_last(set: RangeSet) -> VkNumber
    requires { Good set }
    ensures { result ≡ vk_number (last_of (ranges set)) }
{
    set.last().into()
}

// Is the set the single range start..end?
#[unsafe(no_mangle)]
pub extern "C" fn vk_range_set_eq(set: RangeSet, start: u64, end: u64) -> bool
    requires { Good set }
    ensures { result ≡ is_single (upto start end) (ranges set) }
{
    set.eq(Range { start, end })
}

// Joins start..end to the set; a full set that it joins nothing in loses its lowest range. Offset.
#[unsafe(no_mangle)]
pub extern "C" fn vk_range_set_insert(set: RangeSet, start: u64, end: u64) -> VkRangeSetOut
    requires { Good set }
    ensures { result ≡ set_out (inserted set (upto start end)) }
{
    set.insert(Range { start, end }).into()
}

// The same, but a refusal where a range would be lost. Offset, TableFull.
#[unsafe(no_mangle)]
pub extern "C" fn vk_range_set_try_insert(set: RangeSet, start: u64, end: u64) -> VkRangeSetOut
    requires { Good set }
    ensures { result ≡ set_out (tried set (upto start end)) }
{
    set.try_insert(Range { start, end }).into()
}

// Joins the number `item` to the set. Offset.
#[unsafe(no_mangle)]
pub extern "C" fn vk_range_set_push_item(set: RangeSet, item: u64) -> VkRangeSetOut
    requires { Good set }
    ensures { result ≡ set_out (pushed set item) }
{
    set.push_item(item).into()
}

// Removes every number at or below `largest`, and the empty ranges there.
#[unsafe(no_mangle)]
pub extern "C" fn vk_range_set_remove_until(set: RangeSet, largest: u64) -> RangeSet
    requires { Good set }
    ensures { result ≡ removed set largest }
{
    set.remove_until(largest)
}

impl From<Outcome<(), RangeSet>> for VkRangeSetOut {
    ghost from_gives = { λ o r. r ≡ set_out o };

    #[tactic(auto, unfolding(crate::specs::Rules::set_out))]
    fn from(out: Outcome<(), RangeSet>) -> VkRangeSetOut {
        VkRangeSetOut {
            set: out.state,
            answer: out.answer.into(),
        }
    }
}

impl From<Option<Range>> for VkRangeOut {
    ghost from_gives = { λ f r. r ≡ range_out f };

    #[tactic(auto, unfolding(crate::specs::Rules::range_out))]
    fn from(found: Option<Range>) -> VkRangeOut {
        VkRangeOut {
            range: found.unwrap_or(Range { start: 0, end: 0 }),
            known: found.is_some(),
        }
    }
}

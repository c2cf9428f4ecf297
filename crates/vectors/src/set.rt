// A range set (`rs.`): its calls, and how they are made.
ghost use Rattle.ranges.specs.State.{Good};
ghost use Rattle.ranges.proofs.Props.{set_props};

use super::object::Object;
use super::rooms::Rooms;
use super::text::{List, Said, Shown, Text};
use super::words::{NotUnderstood, number};
use ranges::{Range, RangeSet};
use refusal::Refusal;
use std::fmt::Write;
use std::{array, fmt};

// It is good at all times, as its calls ask.
#[derive(Drop)]
pub struct Set {
    pub set: RangeSet,
    ghost good: { Good set } by { Prim.hlevel set_props },
}

#[derive(Drop)]
pub enum SetCall {
    Insert(Range),
    PushItem(u64),
    RemoveUntil(u64),
    Contains(u64),
    Len,
    Last,
    Iter,
    Eq(Range),
}

impl Object for Set {
    type Call = SetCall;

    fn create(_rooms: &mut Rooms, words: &[&str]) -> Result<Result<Set, Refusal>, NotUnderstood> {
        match words {
            [capacity] => Ok(Set::new(number(capacity)? as usize)),
            _ => Err(NotUnderstood),
        }
    }

    fn read(_rooms: &mut Rooms, name: &str, words: &[&str]) -> Result<SetCall, NotUnderstood> {
        Ok(match (name, words) {
            ("insert", [start, end]) => SetCall::Insert(range(start, end)?),
            ("push_item", [item]) => SetCall::PushItem(number(item)?),
            ("remove_until", [largest]) => SetCall::RemoveUntil(number(largest)?),
            ("contains", [item]) => SetCall::Contains(number(item)?),
            ("len", []) => SetCall::Len,
            ("last", []) => SetCall::Last,
            ("iter", []) => SetCall::Iter,
            ("eq", [start, end]) => SetCall::Eq(range(start, end)?),
            _ => return Err(NotUnderstood),
        })
    }

    fn call(&mut self, _rooms: &mut Rooms, call: SetCall) -> Said {
        match call {
            SetCall::Insert(item) => self.insert(item),
            SetCall::PushItem(item) => self.push_item(item),
            SetCall::RemoveUntil(largest) => self.remove_until(largest),
            SetCall::Contains(item) => Said::Mark(self.set.contains(item)),
            SetCall::Len => Said::Number(self.set.len() as u64),
            SetCall::Last => Said::Optional(self.set.last()),
            SetCall::Iter => Said::Ranges(self.ranges()),
            SetCall::Eq(item) => Said::Mark(self.set.eq(item)),
        }
    }

    fn show(&self, rooms: &mut Rooms) -> fmt::Result {
        write!(rooms.ours, "{}", Text(self.set))
    }
}

fn range(start: &str, end: &str) -> Result<Range, NotUnderstood> {
    Ok(Range {
        start: number(start)?,
        end: number(end)?,
    })
}

// Each method keeps the state that its call leaves, as in send.rt.
impl Set {
    #[tactic(auto, using(ranges::proofs::Kept::created_good))]
    fn new(capacity: usize) -> Result<Set, Refusal> {
        let done = RangeSet::new(capacity);
        done.answer?;
        Ok(Set { set: done.state })
    }

    #[tactic(auto, using(ranges::proofs::Kept::inserted_good))]
    fn insert(&mut self, item: Range) -> Said {
        let done = self.set.insert(item);
        self.set = done.state;
        done.answer.into()
    }

    #[tactic(auto, using(ranges::proofs::Kept::pushed_good))]
    fn push_item(&mut self, item: u64) -> Said {
        let done = self.set.push_item(item);
        self.set = done.state;
        done.answer.into()
    }

    #[tactic(auto, using(ranges::proofs::Kept::removed_good))]
    fn remove_until(&mut self, largest: u64) -> Said {
        self.set = self.set.remove_until(largest);
        Said::Done
    }

    // The ranges as the set's own calls give them, one after the other.
    fn ranges(&self) -> [Option<Range>; 64] {
        array::from_fn(|i| self.set.get(i))
    }
}

// Its table, as far as its count goes.
impl Shown for RangeSet {
    fn show<W: fmt::Write>(self, f: &mut fmt::Formatter<W>) -> fmt::Result {
        let count = self.count.min(64);
        write!(f, "{}", List(&self.inner[..count]))
    }
}

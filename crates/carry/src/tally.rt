// What a run counts, how it is told on standard error, and the verdict. A count that would pass 64 bits stands still.
ghost use Rattle.std.specs.Prelude.{◌≡◌};
ghost use Rattle.carry.specs.Verdict.{sizes_agree, sums_agree, equal, verdict_of};

use crate::refusals::{Call, Refusals};
use crate::text::{Grouped, answer, row, say, word};
use refusal::Refusal;
use std::fmt;
use std::fmt::{Display, Formatter};
use std::rt::Clock;

// The bytes that passed a point: how many, and a checksum.
#[derive(Clone, Copy)]
pub struct Passed {
    pub count: u64,
    pub sum: u64,
}

// The final size as each side knows it.
#[derive(Clone, Copy)]
pub struct FinalSizes {
    pub sender: Option<u64>,
    pub receiver: Option<u64>,
}

#[derive(Clone, Copy)]
pub struct Tally {
    // What the send buffer took, and what the receive buffer handed out.
    pub taken: Passed,
    pub given: Passed,
    // Frames: put into the channel, reported lost to the sender, kept by the dice to arrive again.
    pub sent: u64,
    pub lost: u64,
    pub repeated: u64,
    pub refusals: Refusals,
    // Rounds, and those since a byte was last handed out.
    pub rounds: u64,
    pub idle: u64,
    // The second in which progress was last told.
    pub told: Option<u64>,
}

#[derive(Clone, Copy)]
pub enum Verdict {
    NotWhole,
    NotEqual,
    WholeAndEqual,
}

impl Display for Verdict {
    fn fmt<W: fmt::Write>(&self, f: &mut Formatter<W>) -> fmt::Result {
        match self {
            Verdict::NotWhole => write!(f, "NOT WHOLE"),
            Verdict::NotEqual => write!(f, "NOT EQUAL"),
            Verdict::WholeAndEqual => write!(f, "whole and equal"),
        }
    }
}

impl Passed {
    const NONE: Passed = Passed { count: 0, sum: 0 };

    pub fn add(&mut self, bytes: &[u8]) {
        self.count = self.count.saturating_add(bytes.len() as u64);
        for byte in bytes {
            self.sum = (self.sum % 72_057_594_037_927_931) * 251 + u64::from(*byte);
        }
    }
}

impl Tally {
    pub fn new(rt: &impl Clock) -> Tally {
        Tally {
            taken: Passed::NONE,
            given: Passed::NONE,
            sent: 0,
            lost: 0,
            repeated: 0,
            refusals: Refusals::none(),
            rounds: 0,
            idle: 0,
            told: second(rt),
        }
    }

    pub fn refused(&mut self, call: Call, why: Refusal) {
        self.refusals.add(call, why, self.rounds);
    }

    pub fn gave(&mut self, bytes: &[u8]) {
        self.given.add(bytes);
        self.idle = 0;
    }

    // A round is over. Tells of the progress, at most once a second.
    pub fn round(&mut self, rt: &(impl Eprint + Clock)) {
        self.rounds = self.rounds.saturating_add(1);
        self.idle = self.idle.saturating_add(1);
        let now = second(rt);
        if now != self.told {
            say(rt, "carry: so far ");
            say(rt, Grouped(self.given.count));
            say(rt, " bytes in ");
            say(rt, Grouped(self.rounds));
            say(rt, " rounds\n");
            self.told = now;
        }
    }

    // The closing table. `frame` is the frame size; `whole` says that the stream came to its end.
    pub fn table(&self, rt: &impl Eprint, frame: usize, sizes: FinalSizes, whole: bool) {
        row(rt, "bytes read", self.taken.count);
        row(rt, "bytes handed out", self.given.count);
        row(rt, "frame size", frame as u64);
        row(rt, "frames sent", self.sent);
        row(rt, "frames lost", self.lost);
        row(rt, "frames repeated", self.repeated);
        self.refusals.table(rt);
        row(rt, "rounds", self.rounds);
        size(rt, "final size at the sender", sizes.sender);
        size(rt, "final size at the receiver", sizes.receiver);
        answer(rt, "the stream came to its end", whole);
        answer(rt, "final sizes are the bytes", self.sizes(sizes));
        answer(rt, "checksums are the same", self.sums());
    }

    // The verdict on a run. `whole` says that the stream came to its end.
    pub fn verdict(&self, sizes: FinalSizes, whole: bool) -> Verdict
        ensures { result ≡ verdict_of whole (equal self.now sizes.sender sizes.receiver) }
    {
        match (whole, self.agree(sizes)) {
            (false, _) => Verdict::NotWhole,
            (true, false) => Verdict::NotEqual,
            (true, true) => Verdict::WholeAndEqual,
        }
    }

    // Is each final size known, and the number of bytes on its side, are the two the same, and the checksums?
    fn agree(&self, sizes: FinalSizes) -> bool
        ensures { result ≡ equal self.now sizes.sender sizes.receiver }
    {
        self.sizes(sizes) && self.sums()
    }

    fn sizes(&self, sizes: FinalSizes) -> bool
        ensures { result ≡ sizes_agree self.now sizes.sender sizes.receiver }
    {
        sizes.sender == Some(self.taken.count)
            && sizes.receiver == Some(self.given.count)
            && self.taken.count == self.given.count
    }

    fn sums(&self) -> bool
        ensures { result ≡ sums_agree self.now }
    {
        self.taken.sum == self.given.sum
    }
}

fn size(rt: &impl Eprint, what: &str, size: Option<u64>) {
    match size {
        Some(n) => row(rt, what, n),
        None => word(rt, what, "unknown"),
    }
}

// The clock's second, where there is one to be had.
fn second(rt: &impl Clock) -> Option<u64> {
    Some(rt.since_1970().ok()?.as_secs())
}

// The words that every crate shares: the ten numbered refusals, what a call answers and leaves, the largest offset M, and the sum that is
// held against it.
//
// A refusal is an answer like any other: the `Err` of a `Result`. Its number is the one that docs/RULES.md, 2.1 gives it, and it travels up
// unchanged through every module above the one that gave it.
#![tactic(auto)]

ghost use Rattle.std.specs.Prelude.{◌≡◌, ◌+◌, List, ℕ, ltb};
ghost use Rattle.refusal.specs.Rules.{M, number_of, code_of, told_by, no_values, count_values, bytes_values, sizes_values, first_two};

// The largest stream offset, 2^62 - 1 (RFC 9000, 19.8).
pub const M: u64 = 0x3fff_ffff_ffff_ffff;

#[derive(Clone, Copy, Debug, PartialEq, Eq)]
pub enum Refusal {
    Offset,
    Stopped(u64),
    FinalSize,
    FlowControl,
    NoRoom,
    TableFull,
    NeverSent,
    Done,
    Reset(u64),
    BadSetup,
}

// What a call answers, and the state after it. A refusal stands beside a state too: the one before the call, but where the call says
// otherwise.
#[derive(Clone, Copy)]
pub struct Outcome<T, S> {
    pub answer: Result<T, Refusal>,
    pub state: S,
}

// What a success tells, as numbers: nothing, a count, a count and an end mark, two sizes. C has two places for them.
pub trait Values: Copy {
    ghost values: { Self → List ℕ };

    // The first two, 0 for one that is not there.
    fn first_two(self) -> (u64, u64)
        ensures { result ≡ first_two (values self) };
}

impl Values for () {
    ghost values = { no_values };

    fn first_two(self) -> (u64, u64) {
        (0, 0)
    }
}

impl Values for u64 {
    ghost values = { count_values };

    fn first_two(self) -> (u64, u64) {
        (self, 0)
    }
}

impl Values for (u64, bool) {
    ghost values = { bytes_values };

    fn first_two(self) -> (u64, u64) {
        (self.0, u64::from(self.1))
    }
}

impl Values for (u64, u64) {
    ghost values = { sizes_values };

    fn first_two(self) -> (u64, u64) {
        (self.0, self.1)
    }
}

impl Refusal {
    // The refusal's number, which the rules promise (RULES 2.1): written out, so that each can be read off here.
    pub fn number(self) -> u64
        ensures { result ≡ number_of self }
    {
        match self {
            Refusal::Offset => 1,
            Refusal::Stopped(_) => 2,
            Refusal::FinalSize => 3,
            Refusal::FlowControl => 4,
            Refusal::NoRoom => 5,
            Refusal::TableFull => 6,
            Refusal::NeverSent => 7,
            Refusal::Done => 8,
            Refusal::Reset(_) => 9,
            Refusal::BadSetup => 10,
        }
    }

    // The error code that the peer or the application gave, where the refusal has one. No arm is for all the rest: a new refusal is to be asked for here
    // too.
    pub fn code(self) -> Option<u64>
        ensures { result ≡ code_of self }
    {
        match self {
            Refusal::Offset => None,
            Refusal::Stopped(code) => Some(code),
            Refusal::FinalSize => None,
            Refusal::FlowControl => None,
            Refusal::NoRoom => None,
            Refusal::TableFull => None,
            Refusal::NeverSent => None,
            Refusal::Done => None,
            Refusal::Reset(code) => Some(code),
            Refusal::BadSetup => None,
        }
    }
}

// The number that an answer has: its refusal's, 0 for a success.
pub fn number<T: Values>(answer: Result<T, Refusal>) -> u64
    ensures { result ≡ (told_by T.values answer).number }
{
    match answer {
        Ok(_) => 0,
        Err(why) => why.number(),
    }
}

// Does the whole sum of two numbers pass M?
pub fn above_m(a: u64, b: u64) -> bool
    ensures { result ≡ ltb M (a + b) }
{
    passes(a, b, M)
}

// Does the whole sum of two numbers pass `top`?
pub fn passes(a: u64, b: u64, top: u64) -> bool
    ensures { result ≡ ltb top (a + b) }
{
    top < a || top - a < b
}

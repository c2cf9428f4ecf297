// The refusals that a run met: how many, by the call and the refusal's number, and the last one of each call.
//
// A refusal changes nothing, so each of these calls is made again: a write in the next round, a frame as one that was lost, and a report
// when the frame, which stays in flight, comes to the channel's end again.
ghost use Rattle.std.specs.Prelude.{◌<◌};

use crate::text::{Grouped, amount, say};
use refusal::Refusal;

// The calls that may be refused.
#[derive(Clone, Copy)]
pub enum Call {
    Write,
    Frame,
    Loss,
    Ack,
    Other,
}

// The refusals of one call.
#[derive(Clone, Copy)]
struct Met {
    // How many, at the refusal's number.
    counts: [u64; 11],
    // The last one, and the round that it fell in.
    last: Option<(Refusal, u64)>,
}

#[derive(Clone, Copy)]
pub struct Refusals {
    // At each call, in the order of `CALLS`: the enum's own number is the place, where a map would need a heap.
    met: [Met; 5],
}

const CALLS: [Call; 5] = [Call::Write, Call::Frame, Call::Loss, Call::Ack, Call::Other];

// The name and number of each refusal, at its number; none has the number 0. A `match` on the refusal would be no plainer: where counts are
// told there is no refusal at hand, and two of them have a code beside their number.
const NAMES: [&str; 11] = [
    "",
    "Offset (1)",
    "Stopped (2)",
    "FinalSize (3)",
    "FlowControl (4)",
    "NoRoom (5)",
    "TableFull (6)",
    "NeverSent (7)",
    "Done (8)",
    "Reset (9)",
    "BadSetup (10)",
];

impl Refusals {
    pub fn none() -> Refusals {
        let none = Met {
            counts: [0; 11],
            last: None,
        };
        Refusals { met: [none; 5] }
    }

    pub fn add(&mut self, call: Call, why: Refusal, round: u64) {
        let met = &mut self.met[call as usize];
        let count = &mut met.counts[place(why)];
        *count = count.saturating_add(1);
        met.last = Some((why, round));
    }

    // A line of the closing table for each kind that occurred.
    pub fn table(&self, rt: &impl Eprint) {
        for (met, call) in self.met.iter().zip(CALLS) {
            met.table(rt, call.plural());
        }
    }

    // The last refusal of each call.
    pub fn tell_last(&self, rt: &impl Eprint) {
        for (met, call) in self.met.iter().zip(CALLS) {
            met.tell_last(rt, call.singular());
        }
    }
}

impl Met {
    fn table(&self, rt: &impl Eprint, calls: &str) {
        for (name, count) in NAMES.iter().zip(self.counts) {
            if count > 0 {
                say(rt, format_args!("  {calls:<16}"));
                say(rt, format_args!("{name:<16}"));
                amount(rt, count);
            }
        }
    }

    fn tell_last(&self, rt: &impl Eprint, call: &str) {
        if let Some((why, round)) = self.last {
            let name = NAMES[place(why)];
            say(rt, format_args!("  {call:<26}"));
            say(rt, format_args!("{name:<16}"));
            say(rt, "in round ");
            say(rt, Grouped(round));
            say(rt, "\n");
        }
    }
}

impl Call {
    fn plural(self) -> &'static str {
        match self {
            Call::Write => "writes refused,",
            Call::Frame => "frames refused,",
            Call::Loss => "losses refused,",
            Call::Ack => "acks refused,",
            Call::Other => "calls refused,",
        }
    }

    fn singular(self) -> &'static str {
        match self {
            Call::Write => "last write refused:",
            Call::Frame => "last frame refused:",
            Call::Loss => "last loss report refused:",
            Call::Ack => "last ack refused:",
            Call::Other => "last other call refused:",
        }
    }
}

// Where a refusal stands in the counts and the names.
fn place(why: Refusal) -> usize
    ensures { result < 11 }
{
    why.number() as usize
}

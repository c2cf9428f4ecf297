// Replays a stored list of calls with quiche's answers, and says how many calls agree. It needs no Rust at hand.
//
//     vectors < LIST
//
// The list's text is that of the call script. Under each call stands the line that quiche answers, `< ANSWER | STATE`, and under that, where
// docs/RULES.md asks for another, `! D-nn ANSWER | STATE`, with the row of docs/DIFFERENCES.md. The program makes each call on the proved
// crates, puts the answer and the state that it leaves into text, and compares. A call agrees with quiche's line, or, if it has one, with
// the rules'; any other differs. Lines that begin with `#` and empty ones are skipped.
//
// Any bytes may stand on standard input. A line that is no call is counted as not understood, and one of 8,192 bytes or more as differing.
#![tactic(auto)]

mod case;
mod chunk;
mod object;
mod objects;
mod reader;
mod recv;
mod replay;
mod rooms;
mod send;
mod set;
mod tally;
mod text;
mod window;
mod words;

use reader::{Line, Reader};
use replay::Replay;
use rooms::Rooms;

fn main(rt: HostRuntime) {
    let mut rooms = Rooms::new();
    let mut reader = Reader::new(rt.stdin());
    let mut line = Line::new();
    let mut replay = Replay::new();
    // A proved loop has to end, so this one counts its lines, up to a number that no list comes to.
    for _ in 0..u64::MAX {
        if reader.is_done() {
            break;
        }
        match reader.next(&mut line) {
            Some(line) => replay.line(&rt, &mut rooms, line),
            None => replay.too_long(&rt),
        }
    }
    replay.close(&rt, &rooms, reader.is_broken());
}

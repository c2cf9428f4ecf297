// Carries standard input to standard output: through a send buffer, a channel that loses, repeats and reorders by a seed, and a receive
// buffer. Progress and a closing summary go to standard error.
//
//     carry [seed [loss per mille [repeat per mille [frame size [send arena [receive arena]]]]]] < FILE > COPY
//
// The last line on standard error is the verdict: `carry: whole and equal`, or another that begins with `carry: NOT`. The script `carry` at
// the top of the repository goes by it. What standard error does not take is lost, and the next piece of text is tried all the same.
#![tactic(auto)]

ghost use Rattle.std.specs.Prelude.{◌≤◌};

mod credit;
mod dice;
mod refusals;
mod run;
mod settings;
mod tally;
mod text;
mod window;

use run::{Ends, Run};
use settings::Settings;
use std::rt::Clock;
use text::{Grouped, say};
use window::Window;

fn main(rt: HostRuntime) {
    match settings::from_arguments(&rt) {
        Ok(set) => carry(&rt, set),
        Err(why) => {
            let _ = eprintln!(rt; "carry: {why}");
        }
    }
}

// The whole job.
fn carry(rt: &(impl Input + Print + Eprint + Clock), set: Settings) {
    // Arrays as long as the largest arena: no heap, so no allocator to ask for the lengths that were chosen.
    let mut send_memory = [0; 65536];
    let mut recv_memory = [0; 65536];
    let send_arena = &mut send_memory[..set.send_arena];
    let recv_arena = &mut recv_memory[..set.recv_arena];
    let mut window = Window::new(piece(set.send_arena, set.frame));
    let mut out = [0; 65536];
    let mut run = Run::new(rt, set, send_arena, recv_arena);
    // A proved loop has to end, so this one counts its rounds, up to a number that no run comes to.
    for _ in 0..u64::MAX {
        if !run.goes_on() {
            break;
        }
        run.outward(rt, &mut window, send_arena);
        run.inward(rt, recv_arena, &mut out);
    }
    summary(rt, &run);
}

// The length of the input window. The chunk of which a part waits for the rest of its frame keeps its room: two windows and a frame fit into
// the send arena, so that the next write finds room all the same.
fn piece(room: usize, size: usize) -> usize
    ensures { result ≤ 4096 }
{
    (room.saturating_sub(size) / 2).clamp(1, 4096)
}

// The closing lines. Each is tried, whatever became of those before it: the verdict above all.
fn summary(rt: &impl Eprint, run: &Run) {
    let ends = &run.ends;
    let sizes = ends.final_sizes();
    let whole = run.is_done();
    ends.tally.table(rt, ends.size, sizes, whole);
    if !whole && !ends.broken {
        stall(rt, ends);
    }
    let verdict = ends.tally.verdict(sizes, whole);
    let _ = eprintln!(rt; "carry: {verdict}");
}

// What a run that did not come to its end waits for, and why in vain.
fn stall(rt: &impl Eprint, ends: &Ends) {
    say(rt, "carry: STALLED: the reader waits for byte ");
    say(rt, Grouped(ends.recv.off_front()));
    if ends.is_stuck() {
        say(
            rt,
            ", and all 64 entries of the receive table hold what lies behind it:\n",
        );
        say(
            rt,
            "carry: each frame that brings it is refused TableFull (6), for ever\n",
        );
    } else {
        say(rt, ", and no byte was handed out in a million rounds\n");
    }
    ends.tally.refusals.tell_last(rt);
    let _ = eprintln!(rt;
        "carry: docs/OPERATORS.md says how to choose the sizes: the receive arena at most 63 times the frame size"
    );
}

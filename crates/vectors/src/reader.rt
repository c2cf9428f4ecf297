// Standard input, a line at a time, by way of a small window.
//
// The window is an array with two cursors: `BufReader` takes its room from an allocator, and this program has none.
ghost use Rattle.std.specs.Prelude.{◌≤◌};

use arrayvec::ArrayVec;
use std::io::{Read, Stdin};

// Room for a line, its end not counted. One that fills it was cut.
pub type Line = ArrayVec<u8, 8192>;

// How the input stands. A read that failed is the last one, as the end is.
#[derive(Clone, Copy, PartialEq, Eq)]
enum State {
    Open,
    Ended,
    Broken,
}

#[derive(Drop)]
pub struct Reader {
    input: Stdin,
    // The window's bytes from `at` up to `have` are still to be taken.
    window: [u8; 4096],
    at: usize,
    have: usize,
    state: State,
    ghost have_in: { have ≤ 4096 },
    ghost at_in: { at ≤ have },
}

impl Reader {
    pub fn new(input: Stdin) -> Reader {
        Reader {
            input,
            window: [0; 4096],
            at: 0,
            have: 0,
            state: State::Open,
        }
    }

    pub fn is_done(&self) -> bool {
        self.state != State::Open
    }

    pub fn is_broken(&self) -> bool {
        self.state == State::Broken
    }

    // The next line without its end, put into its room, or none where it is too long. Behind the last one comes an empty line.
    pub fn next<'a>(&mut self, line: &'a mut Line) -> Option<&'a [u8]> {
        line.clear();
        // A proved loop has to end, so this one counts its steps, up to a number that no line comes to.
        for _ in 0..u64::MAX {
            self.refill();
            if self.take(line) || self.is_done() {
                break;
            }
        }
        if line.is_full() {
            None
        } else {
            Some(line.as_slice())
        }
    }

    // Reads anew once all of the window was taken.
    fn refill(&mut self) {
        if self.at < self.have {
            return;
        }
        self.at = 0;
        self.have = 0;
        match self.input.read(&mut self.window) {
            Ok(0) => self.state = State::Ended,
            Ok(n) => self.have = n,
            Err(_) => self.state = State::Broken,
        }
    }

    // Takes what the window has of the line. Did that come to the line's end? What finds no room is left out.
    fn take(&mut self, line: &mut Line) -> bool {
        let waiting = &self.window[self.at..self.have];
        let end = waiting.iter().position(|b| *b == b'\n');
        let n = end.unwrap_or(waiting.len());
        let room = line.remaining_capacity();
        let _ = line.try_extend_from_slice(&waiting[..n.min(room)]);
        match end {
            Some(n) => self.at += n + 1,
            None => self.at = self.have,
        }
        end.is_some()
    }
}

// The input window. It is read into until it is full or the input has ended, and only then written on: a frame waits until all of it is
// written, and each write takes an entry of the send table, which the few bytes that a pipe gives at a time would use up first.
//
// The room is an array with two cursors: `BufReader` takes its room from an allocator, and this program has none.
ghost use Rattle.std.specs.Prelude.{◌≤◌};

use std::io;
use std::io::Read;

#[derive(Drop)]
pub struct Window {
    bytes: [u8; 4096],
    // How long the window is.
    size: usize,
    // It is read up to `have`, and written on up to `at`.
    have: usize,
    at: usize,
    // Has the input ended?
    ended: bool,
    ghost size_in: { size ≤ 4096 },
    ghost have_in: { have ≤ size },
    ghost at_in: { at ≤ have },
}

impl Window {
    pub fn new(size: usize) -> Window
        requires { size ≤ 4096 }
    {
        Window {
            bytes: [0; 4096],
            size,
            have: 0,
            at: 0,
            ended: false,
        }
    }

    pub fn refill(&mut self, rt: &impl Input) -> io::Result<()> {
        if !self.is_filled() {
            let n = rt.reader().read(&mut self.bytes[self.have..self.size])?;
            self.have += n;
            self.ended = n == 0;
        }
        Ok(())
    }

    pub fn is_filled(&self) -> bool {
        self.ended || self.have == self.size
    }

    // What is still to be written. At the end there is nothing.
    pub fn waiting(&self) -> &[u8] {
        &self.bytes[self.at..self.have]
    }

    // `n` bytes more are written. A window of which all is written is read into again.
    pub fn pass(&mut self, n: usize) {
        if n < self.have - self.at {
            self.at += n;
        } else {
            self.at = 0;
            self.have = 0;
        }
    }
}

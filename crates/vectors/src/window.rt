// A window (`fc.`): its calls, and how they are made.
ghost use Rattle.flowcontrol.specs.State.{Good};

use super::object::Object;
use super::rooms::Rooms;
use super::text::{Said, Shown, Text};
use super::words::{NotUnderstood, number};
use flowcontrol::FlowControl;
use refusal::Refusal;
use std::fmt;
use std::fmt::Write;

// It is good at all times, as its calls ask.
#[derive(Drop)]
pub struct Window {
    pub flow: FlowControl,
    ghost good: { Good flow },
}

#[derive(Drop)]
pub enum WindowCall {
    AddConsumed(u64),
    Commit { now: u64 },
    Autotune { now: u64, rtt: u64 },
    LowerBound(u64),
    Window,
    MaxData,
    ShouldUpdate,
    Next,
}

impl Object for Window {
    type Call = WindowCall;

    fn create(
        _rooms: &mut Rooms,
        words: &[&str],
    ) -> Result<Result<Window, Refusal>, NotUnderstood> {
        match words {
            [limit, window, maximum] => Ok(Window::new(
                number(limit)?,
                number(window)?,
                number(maximum)?,
            )),
            _ => Err(NotUnderstood),
        }
    }

    fn read(_rooms: &mut Rooms, name: &str, words: &[&str]) -> Result<WindowCall, NotUnderstood> {
        Ok(match (name, words) {
            ("add_consumed", [n]) => WindowCall::AddConsumed(number(n)?),
            ("commit", [now]) => WindowCall::Commit { now: number(now)? },
            ("autotune", [now, rtt]) => WindowCall::Autotune {
                now: number(now)?,
                rtt: number(rtt)?,
            },
            ("lower_bound", [n]) => WindowCall::LowerBound(number(n)?),
            ("window", []) => WindowCall::Window,
            ("max_data", []) => WindowCall::MaxData,
            ("should_update", []) => WindowCall::ShouldUpdate,
            ("next", []) => WindowCall::Next,
            _ => return Err(NotUnderstood),
        })
    }

    fn call(&mut self, _rooms: &mut Rooms, call: WindowCall) -> Said {
        match call {
            WindowCall::AddConsumed(n) => self.add_consumed(n),
            WindowCall::Commit { now } => self.commit(now),
            WindowCall::Autotune { now, rtt } => self.autotune(now, rtt),
            WindowCall::LowerBound(n) => self.lower_bound(n),
            WindowCall::Window => Said::Number(self.flow.window()),
            WindowCall::MaxData => Said::Number(self.flow.max_data()),
            WindowCall::ShouldUpdate => Said::Mark(self.flow.should_update_max_data()),
            WindowCall::Next => Said::Number(self.flow.max_data_next()),
        }
    }

    fn show(&self, rooms: &mut Rooms) -> fmt::Result {
        write!(rooms.ours, "{}", Text(self.flow))
    }
}

impl Window {
    fn new(limit: u64, window: u64, maximum: u64) -> Result<Window, Refusal> {
        let done = FlowControl::new(limit, window, maximum);
        done.answer?;
        Ok(Window { flow: done.state })
    }

    pub fn add_consumed(&mut self, n: u64) -> Said {
        let done = self.flow.add_consumed(n);
        self.flow = done.state;
        done.answer.into()
    }

    fn commit(&mut self, now: u64) -> Said {
        self.flow = self.flow.update_max_data(now);
        Said::Done
    }

    fn autotune(&mut self, now: u64, rtt: u64) -> Said {
        self.flow = self.flow.autotune_window(now, rtt);
        Said::Done
    }

    pub fn lower_bound(&mut self, n: u64) -> Said {
        let done = self.flow.ensure_window_lower_bound(n);
        self.flow = done.state;
        done.answer.into()
    }
}

impl Shown for FlowControl {
    fn show<W: fmt::Write>(self, f: &mut fmt::Formatter<W>) -> fmt::Result {
        let last = Text(self.last_update);
        write!(
            f,
            "consumed={} limit={} window={} maximum={} last={last}",
            self.consumed, self.max_data, self.window, self.max_window
        )
    }
}

// What is known of the list so far: the objects, the call that stands before its verdict, and what was counted.
use super::case::{Case, Made, Verdict, keep};
use super::objects::Objects;
use super::rooms::Rooms;
use super::tally::{Tally, counted, say};
use super::words::NotUnderstood;

#[derive(Drop)]
pub struct Replay {
    objects: Objects,
    case: Case,
    tally: Tally,
    // How many lines were read.
    lines: u64,
}

impl Replay {
    pub fn new() -> Replay {
        Replay {
            objects: Objects::new(),
            case: Case::Nothing,
            tally: Tally::new(),
            lines: 0,
        }
    }

    pub fn line(&mut self, rt: &impl Print, rooms: &mut Rooms, line: &[u8]) {
        self.lines = self.lines.saturating_add(1);
        match line {
            [] | [b'#', ..] => {}
            [b'<' | b'!', ..] => self.stored(rt, rooms, line),
            _ => {
                self.settle(rt, rooms);
                self.asked(rt, rooms, line);
            }
        }
    }

    // A line that does not fit is reported, and the call that it may belong to has no further verdict.
    pub fn too_long(&mut self, rt: &impl Print) {
        self.lines = self.lines.saturating_add(1);
        say(rt, b"line ");
        counted(rt, self.lines, b": too long\n");
        self.tally.differs();
        self.case = Case::Passed;
    }

    // The closing table.
    pub fn close(&mut self, rt: &impl Print, rooms: &Rooms, broken: bool) {
        self.settle(rt, rooms);
        self.tally.broken = broken;
        self.tally.table(rt);
    }

    // A stored answer: quiche's, or the rules'.
    fn stored(&mut self, rt: &impl Print, rooms: &mut Rooms, line: &[u8]) {
        match &mut self.case {
            Case::Nothing => self.not_understood(rt),
            Case::Passed => {}
            Case::Made(made) => made.hold_against(rooms, line),
        }
    }

    // The next line of the script: the start of a sequence, where all objects are gone, or a call.
    fn asked(&mut self, rt: &impl Print, rooms: &mut Rooms, line: &[u8]) {
        if line == b"seq".as_slice() || line.starts_with(b"seq ") {
            self.objects = Objects::new();
            return;
        }
        keep(&mut rooms.call, line);
        match self.objects.call(rooms, line) {
            Ok(kind) => {
                self.case = Case::Made(Made {
                    line: self.lines,
                    kind,
                    verdict: Verdict::Waits,
                });
            }
            Err(NotUnderstood) => {
                self.case = Case::Passed;
                self.not_understood(rt);
            }
        }
    }

    fn not_understood(&mut self, rt: &impl Print) {
        self.tally.not_understood();
        if self.tally.unclear < 6 {
            say(rt, b"line ");
            counted(rt, self.lines, b": not understood\n");
        }
    }

    // The call before is done with.
    fn settle(&mut self, rt: &impl Print, rooms: &Rooms) {
        if let Case::Made(made) = &self.case {
            made.settle(rt, rooms, &mut self.tally);
        }
        self.case = Case::Nothing;
    }
}

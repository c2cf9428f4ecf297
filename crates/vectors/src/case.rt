// The call that stands before its verdict: how its answer compares with the stored lines so far.
use super::reader::Line;
use super::rooms::Rooms;
use super::tally::{Kind, Tally, counted, say};
use super::words;

#[derive(Clone, Copy)]
pub enum Case {
    // No call.
    Nothing,
    // A line that was not understood, or did not fit: stored answers are passed over.
    Passed,
    Made(Made),
}

// A call on an object, by the number of its line. Its text and our `ANSWER | STATE` stand in their rooms.
#[derive(Clone, Copy)]
pub struct Made {
    pub line: u64,
    pub kind: Kind,
    pub verdict: Verdict,
}

// What the last stored line says.
#[derive(Clone, Copy)]
pub enum Verdict {
    // There was none yet.
    Waits,
    // It is ours.
    Agrees(Source),
    // It is another, which stands in its room.
    Differs,
}

// Whose a stored line is: quiche's, or the rules', in that row of docs/DIFFERENCES.md.
#[derive(Clone, Copy)]
pub enum Source {
    Quiche,
    Rules(u64),
}

impl Made {
    // Holds our line against a stored one.
    pub fn hold_against(&mut self, rooms: &mut Rooms, line: &[u8]) {
        let ours = rooms.ours.as_str().as_bytes();
        self.verdict = match stored(line) {
            Some((source, text)) if text == ours => Verdict::Agrees(source),
            Some((_, text)) => differs(&mut rooms.stored, text),
            None => differs(&mut rooms.stored, line),
        };
    }

    // The verdict, counted; the first few that differ are told.
    pub fn settle(&self, rt: &impl Print, rooms: &Rooms, tally: &mut Tally) {
        tally.called(self.kind);
        let stored = match self.verdict {
            Verdict::Agrees(Source::Quiche) => return tally.agrees(self.kind),
            Verdict::Agrees(Source::Rules(row)) => return tally.in_row(self.kind, row),
            Verdict::Waits => b"".as_slice(),
            Verdict::Differs => rooms.stored.as_slice(),
        };
        if tally.differ < 5 {
            self.tell(rt, rooms, stored);
        }
        tally.differs();
    }

    fn tell(&self, rt: &impl Print, rooms: &Rooms, stored: &[u8]) {
        say(rt, b"line ");
        counted(rt, self.line, b": ");
        told(rt, rooms.call.as_slice());
        say(rt, b"  stored: ");
        told(rt, stored);
        say(rt, b"  ours:   ");
        told(rt, rooms.ours.as_str().as_bytes());
    }
}

// Keeps the stored text.
fn differs(room: &mut Line, text: &[u8]) -> Verdict {
    keep(room, text);
    Verdict::Differs
}

// Puts a text into its room, which is as long as a line can be.
pub fn keep(room: &mut Line, text: &[u8]) {
    room.clear();
    let _ = room.try_extend_from_slice(text);
}

// The rest of a line.
fn told(rt: &impl Print, text: &[u8]) {
    say(rt, text);
    say(rt, b"\n");
}

// A stored line is quiche's, `< ANSWER | STATE`, or the rules', `! D-nn ANSWER | STATE`: whose it is, and its text.
fn stored(line: &[u8]) -> Option<(Source, &[u8])> {
    match line {
        [b'<', _, text @ ..] => Some((Source::Quiche, text)),
        [b'!', _, _, _, text @ ..] => {
            let end = text.iter().position(|b| *b == b' ')?;
            let row = str::from_utf8(&text[..end]).ok()?;
            Some((Source::Rules(words::number(row).ok()?), &text[end + 1..]))
        }
        _ => None,
    }
}

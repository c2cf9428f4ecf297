// What is counted, and the closing table. A count that would pass 64 bits stands still.
//
// The table is many small writes. One that fails is passed over, and the next is tried all the same: the verdict above all.

// The object of a call.
#[derive(Clone, Copy)]
pub enum Kind {
    Chunk,
    Window,
    Set,
    Send,
    Recv,
}

const KINDS: [Kind; 5] = [Kind::Chunk, Kind::Window, Kind::Set, Kind::Send, Kind::Recv];

// The calls on an object: all, those that agree with quiche's stored answer, and those that agree with the rules' in a row.
#[derive(Clone, Copy, Default)]
struct Counts {
    calls: u64,
    agree: u64,
    ruled: u64,
}

#[derive(Drop)]
pub struct Tally {
    // By kind, whose own number is the place. Each of the five has its line in the table, called or not: a map would hold the same five.
    counts: [Counts; 5],
    // By row of docs/DIFFERENCES.md, whose number is the place. A row from 64 on is not counted, so each that is has its place; a map would
    // ask for memory at a new row, and the count could fail.
    rows: [u64; 64],
    pub differ: u64,
    pub unclear: u64,
    // Standard input could not be read to its end.
    pub broken: bool,
}

impl Kind {
    // What the names of its calls begin with.
    fn name(self) -> &'static str {
        match self {
            Kind::Chunk => "rb",
            Kind::Window => "fc",
            Kind::Set => "rs",
            Kind::Send => "s",
            Kind::Recv => "r",
        }
    }
}

fn count(n: &mut u64) {
    *n = n.saturating_add(1);
}

impl Counts {
    fn plus(self, other: Counts) -> Counts {
        Counts {
            calls: self.calls.saturating_add(other.calls),
            agree: self.agree.saturating_add(other.agree),
            ruled: self.ruled.saturating_add(other.ruled),
        }
    }
}

impl Tally {
    pub fn new() -> Tally {
        Tally {
            counts: [Counts::default(); 5],
            rows: [0; 64],
            differ: 0,
            unclear: 0,
            broken: false,
        }
    }

    pub fn called(&mut self, kind: Kind) {
        count(&mut self.counts[kind as usize].calls);
    }

    pub fn agrees(&mut self, kind: Kind) {
        count(&mut self.counts[kind as usize].agree);
    }

    // A row that the table has no place for is not counted.
    pub fn in_row(&mut self, kind: Kind, row: u64) {
        if row < 64 {
            count(&mut self.counts[kind as usize].ruled);
            count(&mut self.rows[row as usize]);
        }
    }

    pub fn differs(&mut self) {
        count(&mut self.differ);
    }

    pub fn not_understood(&mut self) {
        count(&mut self.unclear);
    }

    fn total(&self) -> Counts {
        self.counts
            .iter()
            .fold(Counts::default(), |sum, counts| sum.plus(*counts))
    }

    fn verdict(&self) -> &'static str {
        if self.broken {
            "STANDARD INPUT CANNOT BE READ"
        } else if self.total().calls == 0 {
            "NO CALLS"
        } else if self.differ > 0 {
            "NOT THE SAME"
        } else if self.unclear > 0 {
            "NOT ALL UNDERSTOOD"
        } else {
            "every call as stored"
        }
    }

    // The closing table.
    pub fn table(&self, rt: &impl Print) {
        for kind in KINDS {
            self.kind(rt, kind);
        }
        say(
            rt,
            b"rows of docs/DIFFERENCES.md, each call with what docs/RULES.md asks:\n",
        );
        self.each_row(rt);
        let Counts {
            calls,
            agree,
            ruled,
        } = self.total();
        counted(rt, calls, b" calls\n");
        counted(rt, agree, b" agree with quiche's stored answer\n");
        counted(
            rt,
            ruled,
            b" stand in a row and give what docs/RULES.md asks\n",
        );
        counted(rt, self.differ, b" differ otherwise\n");
        counted(rt, self.unclear, b" lines not understood\n");
        let _ = println!(rt; "vectors: {}", self.verdict());
    }

    fn kind(&self, rt: &impl Print, kind: Kind) {
        let Counts {
            calls,
            agree,
            ruled,
        } = self.counts[kind as usize];
        let _ = print!(rt; "{}.: ", kind.name());
        counted(rt, calls, b" calls, ");
        counted(rt, agree, b" agree with quiche, ");
        counted(rt, ruled, b" in a row\n");
    }

    // The rows that calls stand in.
    fn each_row(&self, rt: &impl Print) {
        for (row, n) in self.rows.iter().enumerate() {
            if *n > 0 {
                say(rt, b"  D-");
                counted(rt, row as u64, b": ");
                counted(rt, *n, b"\n");
            }
        }
    }
}

// One write.
pub fn say(rt: &impl Print, text: &[u8]) {
    let _ = rt.write_all(text);
}

// Two: a number, and the text behind it.
pub fn counted(rt: &impl Print, n: u64, text: &[u8]) {
    let _ = print!(rt; "{n}");
    say(rt, text);
}

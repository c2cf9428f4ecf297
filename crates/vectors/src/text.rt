// The call script's text: how it writes numbers that may be missing, marks, bytes, chunks, ranges and answers.
use super::rooms::front;
use arrayvec::{ArrayString, ArrayVec};
use range_buf::RangeBuf;
use ranges::Range;
use refusal::Refusal;
use std::fmt;

// Room for `ANSWER | STATE`, which is at most two tables of 64 entries and some thirty numbers more.
pub type AnswerText = ArrayString<8192>;

// Room for what the getters of a buffer give.
pub type GettersText = ArrayString<512>;

// What the script has a spelling of its own for.
pub trait Shown: Copy {
    fn show<W: fmt::Write>(self, f: &mut fmt::Formatter<W>) -> fmt::Result;
}

// The script's spelling of a value, to be printed.
#[derive(Clone, Copy)]
pub struct Text<T: Shown>(pub T);

impl<T: Shown> fmt::Display for Text<T> {
    fn fmt<W: fmt::Write>(&self, f: &mut fmt::Formatter<W>) -> fmt::Result {
        self.0.show(f)
    }
}

// A table: its entries in brackets, with commas between.
#[derive(Clone, Copy)]
pub struct List<'a, T: Shown>(pub &'a [T]);

impl<'a, T: Shown> fmt::Display for List<'a, T> {
    fn fmt<W: fmt::Write>(&self, f: &mut fmt::Formatter<W>) -> fmt::Result {
        write!(f, "[")?;
        for (i, entry) in self.0.iter().enumerate() {
            if i > 0 {
                write!(f, ",")?;
            }
            entry.show(f)?;
        }
        write!(f, "]")
    }
}

// What is shown of bytes: up to 32 in full, of more their count and CRC-32.
#[derive(Drop)]
pub enum Bytes {
    InFull(ArrayVec<u8, 32>),
    Summed(usize, u32),
}

impl Bytes {
    pub fn of(bytes: &[u8]) -> Bytes {
        let mut few = ArrayVec::new();
        match few.try_extend_from_slice(bytes) {
            Ok(()) => Bytes::InFull(few),
            Err(_) => Bytes::Summed(bytes.len(), crc32(bytes)),
        }
    }
}

impl fmt::Display for Bytes {
    fn fmt<W: fmt::Write>(&self, f: &mut fmt::Formatter<W>) -> fmt::Result {
        match self {
            Bytes::InFull(bytes) => {
                write!(f, "x")?;
                for b in bytes.as_slice() {
                    write!(f, "{b:02x}")?;
                }
                Ok(())
            }
            Bytes::Summed(count, sum) => write!(f, "h{count}:{sum:08x}"),
        }
    }
}

// CRC-32 as in zip files.
fn crc32(bytes: &[u8]) -> u32 {
    !bytes.iter().fold(u32::MAX, |crc, b| with_byte(crc, *b))
}

fn with_byte(crc: u32, b: u8) -> u32 {
    (0..8).fold(crc ^ u32::from(b), |c, _| with_bit(c))
}

fn with_bit(c: u32) -> u32 {
    if c % 2 == 1 {
        (c / 2) ^ 0xedb8_8320
    } else {
        c / 2
    }
}

impl Shown for bool {
    fn show<W: fmt::Write>(self, f: &mut fmt::Formatter<W>) -> fmt::Result {
        write!(f, "{}", u8::from(self))
    }
}

impl Shown for Option<u64> {
    fn show<W: fmt::Write>(self, f: &mut fmt::Formatter<W>) -> fmt::Result {
        match self {
            Some(n) => write!(f, "{n}"),
            None => write!(f, "-"),
        }
    }
}

impl Shown for RangeBuf {
    fn show<W: fmt::Write>(self, f: &mut fmt::Formatter<W>) -> fmt::Result {
        write!(f, "{}+{}~{}", self.off, self.len, self.pos)
    }
}

impl Shown for Range {
    fn show<W: fmt::Write>(self, f: &mut fmt::Formatter<W>) -> fmt::Result {
        write!(f, "{}-{}", self.start, self.end)
    }
}

// The ranges that were found at the places of a table.
fn show_found<W: fmt::Write>(
    f: &mut fmt::Formatter<W>,
    places: &[Option<Range>; 64],
) -> fmt::Result {
    write!(f, "ok [")?;
    for (i, place) in places.iter().enumerate() {
        if let Some(range) = place {
            if i > 0 {
                write!(f, ",")?;
            }
            range.show(f)?;
        }
    }
    write!(f, "]")
}

// `no`, the refusal's number, and its code where it has one.
impl Shown for Refusal {
    fn show<W: fmt::Write>(self, f: &mut fmt::Formatter<W>) -> fmt::Result {
        let number = self.number();
        match self.code() {
            Some(code) => write!(f, "no {number} {code}"),
            None => write!(f, "no {number}"),
        }
    }
}

// What a call answers.
#[derive(Drop)]
pub enum Said {
    // The object was never created.
    Absent,
    Done,
    Number(u64),
    Optional(Option<u64>),
    Mark(bool),
    Sizes(u64, u64),
    // How many bytes, and whether they reach the final size; without the bytes, or with them.
    Discarded(u64, bool),
    Emitted(u64, bool, Bytes),
    Right(RangeBuf),
    Ranges([Option<Range>; 64]),
    // What all getters give.
    Getters(GettersText),
    Refused(Refusal),
}

impl From<Result<(), Refusal>> for Said {
    fn from(answer: Result<(), Refusal>) -> Said {
        answer.map_or_else(Said::Refused, |()| Said::Done)
    }
}

impl From<Result<u64, Refusal>> for Said {
    fn from(answer: Result<u64, Refusal>) -> Said {
        answer.map_or_else(Said::Refused, Said::Number)
    }
}

impl From<Result<(u64, u64), Refusal>> for Said {
    fn from(answer: Result<(u64, u64), Refusal>) -> Said {
        answer.map_or_else(Said::Refused, |(first, second)| Said::Sizes(first, second))
    }
}

impl From<Result<(u64, bool), Refusal>> for Said {
    fn from(answer: Result<(u64, bool), Refusal>) -> Said {
        answer.map_or_else(Said::Refused, |(n, fin)| Said::Discarded(n, fin))
    }
}

impl From<Result<RangeBuf, Refusal>> for Said {
    fn from(answer: Result<RangeBuf, Refusal>) -> Said {
        answer.map_or_else(Said::Refused, Said::Right)
    }
}

impl Said {
    // The bytes are the first of `out`.
    pub fn emitted(answer: Result<(u64, bool), Refusal>, out: &[u8]) -> Said {
        match answer {
            Ok((n, fin)) => Said::Emitted(n, fin, Bytes::of(front(out, n))),
            Err(why) => Said::Refused(why),
        }
    }
}

impl fmt::Display for Said {
    fn fmt<W: fmt::Write>(&self, f: &mut fmt::Formatter<W>) -> fmt::Result {
        match self {
            Said::Absent => write!(f, "-"),
            Said::Done => write!(f, "ok"),
            Said::Number(n) => write!(f, "ok {n}"),
            Said::Optional(n) => write!(f, "ok {}", Text(*n)),
            Said::Mark(yes) => write!(f, "ok {}", Text(*yes)),
            Said::Sizes(first, second) => write!(f, "ok {first} {second}"),
            Said::Discarded(n, fin) => write!(f, "ok {n} {}", Text(*fin)),
            Said::Emitted(n, fin, bytes) => write!(f, "ok {n} {} {bytes}", Text(*fin)),
            Said::Right(chunk) => write!(f, "ok {}", Text(*chunk)),
            Said::Ranges(ranges) => show_found(f, ranges),
            Said::Getters(text) => write!(f, "ok {text}"),
            Said::Refused(why) => why.show(f),
        }
    }
}

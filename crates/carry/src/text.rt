// Text on standard error: numbers with a comma before each three digits, and the lines of the closing table.
use std::fmt::{self, Display, Formatter};

// A number, spelled with the commas.
#[derive(Clone, Copy)]
pub struct Grouped(pub u64);

impl Display for Grouped {
    fn fmt<W: fmt::Write>(&self, f: &mut Formatter<W>) -> fmt::Result {
        let width = f.width().unwrap_or(0);
        spell(f, self.0, width)
    }
}

// Writes `n` at the end of `width` places, or in as many as it takes. By hand, since the library groups no digits.
fn spell<W: fmt::Write>(f: &mut Formatter<W>, n: u64, width: usize) -> fmt::Result {
    if n < 1000 {
        return write!(f, "{n:>width$}");
    }
    spell(f, n / 1000, width.saturating_sub(4))?;
    write!(f, ",{:03}", n % 1000)
}

// A piece of text, by a write of its own. One that cannot be written is passed over, and the next is tried all the same.
pub fn say<T: Display + Drop>(rt: &impl Eprint, text: T) {
    let _ = eprint!(rt; "{text}");
}

// A line of the table: what, and in the last of its columns how much.
pub fn row(rt: &impl Eprint, what: &str, n: u64) {
    say(rt, format_args!("  {what:<32}"));
    amount(rt, n);
}

// The last column of a line, and its end.
pub fn amount(rt: &impl Eprint, n: u64) {
    say(rt, format_args!("{:>15}", Grouped(n)));
    say(rt, "\n");
}

// A line of the table with an answer in place of the number.
pub fn answer(rt: &impl Eprint, what: &str, yes: bool) {
    word(rt, what, if yes { "yes" } else { "NO" });
}

// The same with another word.
pub fn word(rt: &impl Eprint, what: &str, word: &str) {
    say(rt, format_args!("  {what:<32}"));
    say(rt, format_args!("{word:>15}\n"));
}

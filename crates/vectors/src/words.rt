// The words of a line: numbers, marks, byte strings, the parts of a split, and an arena that is lent.
//
// Nothing is taken on trust: a word that is none of the script's, a number that does not fit 64 bits, a pattern longer than any buffer can
// use: each makes the line one that is not understood.
use super::rooms::front_mut;
use arrayvec::ArrayVec;

// A line that is no call.
#[derive(Clone, Copy)]
pub struct NotUnderstood;

// The words of a line: the call's name, at most three behind it, and an arena.
pub type Words<'a> = ArrayVec<&'a str, 5>;

// A line of more words is no call.
pub fn split(line: &str) -> Result<Words<'_>, NotUnderstood> {
    let mut words = Words::new();
    for word in line.split(' ') {
        if words.try_push(word).is_err() {
            return Err(NotUnderstood);
        }
    }
    Ok(words)
}

// The part of a split that stays the current chunk.
#[derive(Clone, Copy)]
pub enum Part {
    Left,
    Right,
}

// Decimal digits, with no sign.
// `carry` reads its arguments so as well: the two programs share no crate of their own, and one for these lines is no plainer.
pub fn number(word: &str) -> Result<u64, NotUnderstood> {
    if word.starts_with('+') {
        return Err(NotUnderstood);
    }
    word.parse::<u64>().map_err(|_| NotUnderstood)
}

// A number, or `-` for none.
pub fn optional(word: &str) -> Result<Option<u64>, NotUnderstood> {
    if word == "-" {
        return Ok(None);
    }
    Ok(Some(number(word)?))
}

// A yes or no, `1` or `0`.
pub fn mark(word: &str) -> Result<bool, NotUnderstood> {
    match number(word)? {
        0 => Ok(false),
        1 => Ok(true),
        _ => Err(NotUnderstood),
    }
}

// `l` or `r`.
pub fn side(word: &str) -> Result<Part, NotUnderstood> {
    match word {
        "l" => Ok(Part::Left),
        "r" => Ok(Part::Right),
        _ => Err(NotUnderstood),
    }
}

// `@N` behind all other words: an arena of N zeros that is lent in place of the buffer's own.
pub fn lent(words: &[&str]) -> Result<Option<u64>, NotUnderstood> {
    match words {
        [] => Ok(None),
        [word] => match word.strip_prefix('@') {
            Some(length) => Ok(Some(number(length)?)),
            None => Err(NotUnderstood),
        },
        _ => Err(NotUnderstood),
    }
}

// A byte string: `x` and hexadecimal digits, or the pattern `pN:T`. It is put at the front of a room, and the answer is its length.
pub fn bytes(room: &mut [u8], word: &str) -> Result<u64, NotUnderstood> {
    if let Some(digits) = word.strip_prefix('x') {
        return from_hex(room, digits);
    }
    match word
        .strip_prefix('p')
        .and_then(|pattern| pattern.split_once(':'))
    {
        Some((count, which)) => pattern(room, number(count)?, number(which)?),
        None => Err(NotUnderstood),
    }
}

// The digits above 9 are small letters.
fn from_hex(room: &mut [u8], digits: &str) -> Result<u64, NotUnderstood> {
    if digits.bytes().any(|b| b.is_ascii_uppercase()) {
        return Err(NotUnderstood);
    }
    let count = digits.len() as u64 / 2;
    match hex::decode_to_slice(digits, front_mut(room, count)) {
        Ok(()) => Ok(count),
        Err(_) => Err(NotUnderstood),
    }
}

// One that finds no room is not understood.
fn pattern(room: &mut [u8], count: u64, which: u64) -> Result<u64, NotUnderstood> {
    if count > room.len() as u64 {
        return Err(NotUnderstood);
    }
    for (i, byte) in front_mut(room, count).iter_mut().enumerate() {
        *byte = pattern_byte(i as u64, which);
    }
    Ok(count)
}

// Byte i of pattern t: (7 i + 3 (i / 256) + 41 t + 1) mod 256.
fn pattern_byte(i: u64, t: u64) -> u8 {
    let sum = 7 * (i % 256) + 3 * (i / 256 % 256) + 41 * (t % 256) + 1;
    (sum % 256) as u8
}

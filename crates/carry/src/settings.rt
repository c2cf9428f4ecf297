// The program's arguments: at most six numbers, each with a default.
//
// A frame is never longer than the receive arena, which could not take it, or a third of the send arena, which must hold a frame and two
// windows of input. The receive arena that nobody asks for is the largest that never stalls: 63 frames (docs/OPERATORS.md).
ghost use Rattle.std.specs.Prelude.{◌≤◌, ◌<◌, IfOk, IfSome};

use std::env::FillError;
use std::fmt::{Display, Formatter};
use std::rt::Env;
use std::{fmt, str};

#[derive(Clone, Copy)]
pub struct Settings {
    pub seed: u64,
    // Of a thousand frames, how many are lost, and how many of those that arrive do so again.
    pub loss: u64,
    pub again: u64,
    pub frame: usize,
    pub send_arena: usize,
    pub recv_arena: usize,
    ghost some: { 0 < frame },
    ghost fits_a_slot: { frame ≤ 1200 },
    ghost send_arena_in: { send_arena ≤ 65536 },
    ghost recv_arena_in: { recv_arena ≤ 65536 },
}

// Why the arguments cannot be used.
#[derive(Clone, Copy)]
pub enum Unusable {
    TooMany,
    NoNumber {
        name: &'static str,
        low: u64,
        high: u64,
    },
}

impl Display for Unusable {
    fn fmt<W: fmt::Write>(&self, f: &mut Formatter<W>) -> fmt::Result {
        match self {
            Unusable::TooMany => write!(
                f,
                "at most six numbers: seed, loss per mille, repeat per mille, frame size, send arena, receive arena"
            ),
            Unusable::NoNumber { name, low, high } => {
                write!(f, "the {name} must be a number from {low} to {high}")
            }
        }
    }
}

// What was asked for.
pub fn from_arguments(rt: &impl Env) -> Result<Settings, Unusable> {
    if is_given(rt, 7) {
        return Err(Unusable::TooMany);
    }
    let seed = argument(rt, 1, "seed", 0, 2_147_483_647)?.unwrap_or(1);
    let loss = argument(rt, 2, "loss per mille", 0, 999)?.unwrap_or(100);
    let again = argument(rt, 3, "repeat per mille", 0, 1000)?.unwrap_or(50);
    let frame = argument(rt, 4, "frame size", 1, 1200)?.unwrap_or(1200);
    let send_arena = argument(rt, 5, "send arena", 1, 65536)?.unwrap_or(65536);
    let frame = frame.min((send_arena / 3).max(1));
    let roomy = (63 * frame).min(65536);
    let recv_arena = argument(rt, 6, "receive arena", 1, 65536)?.unwrap_or(roomy);
    Ok(Settings {
        seed,
        loss,
        again,
        frame: frame.min(recv_arena) as usize,
        send_arena: send_arena as usize,
        recv_arena: recv_arena as usize,
    })
}

// Is there an argument `i`, of whatever length?
fn is_given(rt: &impl Env, i: usize) -> bool {
    !matches!(rt.arg(i, &mut [0; 32]), Err(FillError::NotPresent))
}

// Argument `i`, if there is one. It must be a number from `low` to `high`, of at most 32 places.
// The name and the bounds come one by one: as a struct, each of the six calls would spell out its fields, and only one line would gain.
fn argument(
    rt: &impl Env,
    i: usize,
    name: &'static str,
    low: u64,
    high: u64,
) -> Result<Option<u64>, Unusable>
    ensures { IfOk result (λ given. IfSome given (λ n. (low ≤ n) × (n ≤ high))) }
{
    let mut text = [0; 32];
    let read = match rt.arg(i, &mut text) {
        Ok(len) => number(&text[..len]),
        Err(FillError::TooLong) => None,
        Err(FillError::NotPresent) => return Ok(None),
    };
    match read {
        Some(n) if low <= n && n <= high => Ok(Some(n)),
        _ => Err(Unusable::NoNumber { name, low, high }),
    }
}

// The decimal number that the text is: digits alone. (`parse` would take a plus sign before them.)
// `vectors` reads its numbers so as well, from words: the two programs share no crate of their own, and one for these lines is no plainer.
fn number(text: &[u8]) -> Option<u64> {
    if !text.iter().all(|place| place.is_ascii_digit()) {
        return None;
    }
    str::from_utf8(text).ok()?.parse().ok()
}

// The arena: the bytes that a caller lends to a buffer, as a ring. The byte of stream offset o lies at place o mod A, A being the
// arena's length, so a window of A offsets has a place for each.
//
//     offset   6  7  8  9 10 11           A = 4
//     place    2  3  0  1  2  3           10 lies where 6 lay: one of them must be gone
//
// A run of at most A offsets lies in at most two stretches: up to the arena's end, and on from its start. Each is copied as a whole part.
// A longer run goes round: each further stretch begins at the start, too.
//
// Any arena, offset and bytes are taken. Offsets are whole numbers: the place of offset 2^64 is 2^64 mod A.
#![tactic(auto)]

ghost use Rattle.std.specs.Prelude.{◌≡◌, ◌%◌, ◌<◌, length};
ghost use Rattle.arena.specs.Rules.{kept, handed};

// Keeps the bytes of `src` from offset `off` on. An arena of no places keeps nothing.
pub fn keep(arena: &mut [u8], off: u64, src: &[u8])
    ensures { arena.new ≡ kept arena.old off src.now }
{
    let all = arena.len();
    if all == 0 || src.is_empty() {
        return;
    }
    let at = place(off, all);
    let (front, rest) = src.split_at(src.len().min(all - at));
    copy(&mut arena[at..at + front.len()], front);
    for part in rest.chunks(all) {
        copy(&mut arena[..part.len()], part);
    }
}

// Fills `out` with the bytes kept from offset `off` on. An arena of no places leaves it as it is.
pub fn hand(arena: &[u8], off: u64, out: &mut [u8])
    ensures { out.new ≡ handed arena.now off out.old }
{
    let all = arena.len();
    if all == 0 || out.is_empty() {
        return;
    }
    let at = place(off, all);
    let end = out.len().min(all - at);
    copy(&mut out[..end], &arena[at..at + end]);
    // Not by `chunks_mut`: of a slice that it has lent, a proof knows the length alone, and not the bytes.
    for start in (end..out.len()).step_by(all) {
        let n = (out.len() - start).min(all);
        copy(&mut out[start..start + n], &arena[..n]);
    }
}

// The place of offset `off` among `all` places.
fn place(off: u64, all: usize) -> usize
    requires { 0 < all }
    ensures { (result ≡ off % all) × (result < all) }
{
    (off % all as u64) as usize
}

// Copies `src` over `dst`, which is as long.
fn copy(dst: &mut [u8], src: &[u8])
    requires { length dst.old ≡ length src.now }
    ensures { dst.new ≡ src.now }
{
    for i in 0..src.len() {
        dst[i] = src[i];
    }
}

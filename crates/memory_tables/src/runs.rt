// Runs of words moved between lent slices.
ghost use Rattle.std.specs.Prelude.{◌≡◌, ◌+◌, ◌-◌, ◌*◌, ◌<◌, ◌≤◌, length, take, replicate};
ghost use Rattle.lists.specs.Parts.{part, splice, pad};
ghost use Rattle.memory_tables.specs.Runs.{Moved, lowered, rebase, between, RebaseFits};

use crate::frame::{BASE, CLOSURE, CODE, FRAME_WIDTH, PC, REG};
use model::program::{MOST_ARGS, MOST_STACK};

// As `move_words`, by way of an array: compiled to one move and one clearing of memory, which pays from some eight words on.
fn move_block(dst: &mut [u64], at: usize, src: &mut [u64], from: usize, n: usize)
    requires { (n ≤ 1024) × (at + n ≤ length dst.old) × (from + n ≤ length src.old) }
    ensures { Moved dst.old src.old dst.new src.new at from n }
{
    let mut room = [0u64; MOST_STACK];
    lists::copy_words(&mut room[..n], &src[from..from + n]);
    lists::copy_words(&mut dst[at..at + n], &room[..n]);
    lists::clear_words(&mut src[from..from + n]);
}

// The n words of `src` from index `from` go to `dst` from index `at`, and become 0 in `src`.
pub fn move_words(dst: &mut [u64], at: usize, src: &mut [u64], from: usize, n: usize)
    requires { (at + n ≤ length dst.old) × (from + n ≤ length src.old) }
    ensures { Moved dst.old src.old dst.new src.new at from n }
{
    if 8 < n && n <= MOST_STACK {
        move_block(dst, at, src, from, n);
        return;
    }
    lists::take_words(&mut dst[at..at + n], &mut src[from..from + n]);
}

// n words from index `at` become 0.
pub fn clear_part(ws: &mut [u64], at: usize, n: usize)
    requires { at + n ≤ length ws.old }
    ensures { ws.new ≡ splice ws.old at (replicate n 0) }
{
    let end = at + n;
    lists::clear_words(&mut ws[at..end]);
}

// Up to 255 words set aside.
pub fn set_aside(src: &[u64], at: usize, n: usize) -> [u64; MOST_ARGS]
    requires { (n ≤ 255) × (at + n ≤ length src.now) }
    ensures { result ≡ pad 255 (part at n src.now) }
{
    let mut args = [0u64; MOST_ARGS];
    lists::copy_words(&mut args[..n], &src[at..at + n]);
    args
}

// The first n words of `src` into the `room` words from index `at`, the rest 0.
pub fn fill_row(rows: &mut [u64], at: usize, room: usize, src: &[u64], n: usize)
    requires { (n ≤ room) × (n ≤ length src.now) × (at + room ≤ length rows.old) }
    ensures { rows.new ≡ splice rows.old at (pad room (take n src.now)) }
{
    let mid = at + n;
    let end = at + room;
    lists::copy_words(&mut rows[at..mid], &src[..n]);
    lists::clear_words(&mut rows[mid..end]);
}

// The n words from index `from` on move to the front.
pub fn move_down(s: &mut [u64], from: usize, n: usize)
    requires { from + n ≤ length s.old }
    ensures { s.new ≡ lowered from n s.old }
{
    s.copy_within(from..from + n, 0);
}

// The frame at word k of `src` goes to word i of `dst`, its base less by `old` and more by `new`; its words become 0 in `src`.
fn move_frame(dst: &mut [u64], i: usize, src: &mut [u64], k: usize, old: u64, new: u64)
    requires { (i + 6 ≤ length dst.old) × RebaseFits src.old k 1 old new }
    ensures { (dst.new ≡ rebase (between old new) 1 i (splice dst.old i (part k 6 src.old))) × (src.new ≡ splice src.old k (replicate 6 0)) }
{
    let func = src[k];
    let pc = src[k + PC];
    let base = src[k + BASE];
    let closure = src[k + CLOSURE];
    let cont = src[k + CODE];
    let reg = src[k + REG];
    src[k] = 0;
    src[k + PC] = 0;
    src[k + BASE] = 0;
    src[k + CLOSURE] = 0;
    src[k + CODE] = 0;
    src[k + REG] = 0;
    dst[i] = func;
    dst[i + PC] = pc;
    dst[i + BASE] = base - old + new;
    dst[i + CLOSURE] = closure;
    dst[i + CODE] = cont;
    dst[i + REG] = reg;
}

// The n frames from word `from` of `src` go to `dst` from word `at`, their bases less by `old` and more by `new`; their words become 0
// in `src`.
pub fn move_frames(
    dst: &mut [u64],
    at: usize,
    src: &mut [u64],
    from: usize,
    n: usize,
    old: u64,
    new: u64,
)
    requires { (at + n * 6 ≤ length dst.old) × RebaseFits src.old from n old new }
    ensures { (dst.new ≡ rebase (between old new) n at (splice dst.old at (part from (n * 6) src.old))) × (src.new ≡ splice src.old from (replicate (n * 6) 0)) }
{
    for j in 0..n {
        move_frame(
            dst,
            at + j * FRAME_WIDTH,
            src,
            from + j * FRAME_WIDTH,
            old,
            new,
        );
    }
}

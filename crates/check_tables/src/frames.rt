// Frames in lent words, from the top down. A frame ends where the one above it begins.
ghost use Rattle.std.specs.Prelude.{◌≡◌, ◌*◌, ◌≤◌, length};
ghost use Rattle.model.specs.Sound.{lies_under};
ghost use Rattle.memory_tables.specs.Layout.{frame_of};
ghost use Rattle.memory_tables.specs.Parts.{piled};
ghost use Rattle.memory_world.specs.Decode.{setup_of};
ghost use Rattle.check_tables.specs.Frames.{cont_test, frame_test, frames_test, stack_frames_ok, saved_frames_ok, FrameFits, FramesFit};

use heap::value::BITS32;
use memory_tables::frame::{
    BASE, CODE, CODES, CORO, DISCARD, ENTRY, FRAME_WIDTH, PC, REG, base_at,
};
use memory_tables::layout;
use model::program::MOST_FUNCTIONS;

// Whether a register lies in the frame below the one at place i, which begins at `end`.
pub(crate) fn lies_under(ws: &[u64], i: usize, r: u64, end: u64) -> bool
    requires { i * 6 ≤ length ws.now }
    ensures { result ≡ lies_under r end (piled 6 frame_of i ws.now) }
{
    if i == 0 {
        return false;
    }
    let below = i - 1;
    let base = base_at(ws, below) as u64;
    base < end && r < end - base
}

// The continuation of the frame at place i, which begins at `base`: a code with its register, at a place where it may stand.
fn cont_ok(ws: &[u64], saved: bool, i: usize, code: u64, r: u64, base: u64) -> bool
    requires { i * 6 ≤ length ws.now }
    ensures { result ≡ cont_test saved ws.now i code r base }
{
    if code == ENTRY {
        if saved {
            return false;
        }
        if r != 0 {
            return false;
        }
        return i == 0;
    }
    if code < DISCARD {
        return lies_under(ws, i, r, base);
    }
    if r != 0 {
        return false;
    }
    if !saved {
        return code < CODES;
    }
    if i == 0 {
        return code == CORO;
    }
    code == DISCARD
}

// The frame at place i, which ends at `end`.
fn frame_ok(
    ws: &[u64],
    setup: &[u64],
    need: &[u64; MOST_FUNCTIONS],
    saved: bool,
    i: usize,
    end: u64,
) -> bool
    requires { FrameFits ws.now need.now setup.now i }
    ensures { result ≡ frame_test saved (setup_of setup.now) ws.now i end }
{
    let at = i * FRAME_WIDTH;
    let func = ws[at];
    let base = ws[at + BASE];
    let code = ws[at + CODE];
    let r = ws[at + REG];
    if end < base {
        return false;
    }
    if func >= setup[layout::FUNCTIONS] {
        return false;
    }
    if ws[at + PC] >= BITS32 {
        return false;
    }
    let f = func as usize;
    if end - base < need[f] {
        return false;
    }
    cont_ok(ws, saved, i, code, r, base)
}

// n frames over `end` words.
fn frames_over(
    ws: &[u64],
    setup: &[u64],
    need: &[u64; MOST_FUNCTIONS],
    saved: bool,
    n: usize,
    end: u64,
) -> bool
    requires { FramesFit ws.now need.now setup.now n }
    ensures { result ≡ frames_test saved (setup_of setup.now) ws.now n end }
{
    let mut e = end;
    for i in (0..n).rev() {
        if !frame_ok(ws, setup, need, saved, i, e) {
            return false;
        }
        e = base_at(ws, i) as u64;
    }
    e == 0
}

// The n frames on the stack of so many words, and zeros after them.
pub fn stack_frames_ok(
    ws: &[u64],
    setup: &[u64],
    need: &[u64; MOST_FUNCTIONS],
    n: usize,
    height: usize,
) -> bool
    requires { FramesFit ws.now need.now setup.now n }
    ensures { result ≡ stack_frames_ok (setup_of setup.now) ws.now n height }
{
    frames_over(ws, setup, need, false, n, height as u64)
        && crate::rest::rest_ok(ws, n * FRAME_WIDTH)
}

// The n frames of a row with so many saved registers, and zeros after them.
pub fn saved_frames_ok(
    ws: &[u64],
    setup: &[u64],
    need: &[u64; MOST_FUNCTIONS],
    n: usize,
    regs: u64,
) -> bool
    requires { FramesFit ws.now need.now setup.now n }
    ensures { result ≡ saved_frames_ok (setup_of setup.now) ws.now n regs }
{
    if n == 0 {
        return false;
    }
    frames_over(ws, setup, need, true, n, regs) && crate::rest::rest_ok(ws, n * FRAME_WIDTH)
}

// What a coroutine has saved: its counts, its row's frames and registers.
ghost use Rattle.std.specs.Prelude.{◌≡◌, ◌&&◌, ◌+◌, ◌*◌, ◌≤◌, ◌<◌, length};
ghost use Rattle.lists.specs.Chunks.{chunk_at};
ghost use Rattle.memory_world.specs.Decode.{setup_of};
ghost use Rattle.memory_sound.specs.Words.{rest_ok};
ghost use Rattle.check_tables.specs.Frames.{saved_frames_ok, FramesFit};
ghost use Rattle.check_machine.specs.Saved.{largest_in, sizes_in, nothing_saved, waits_in, frames_in, coro_test, RowFits, SavedFits};

use check_tables::frames::saved_frames_ok;
use check_tables::rest::rest_ok;
use heap::object::CoroObj;
use memory_tables::frame::{FRAME_WIDTH, base_at};
use memory_world::machine::Sizes;
use model::program::MOST_FUNCTIONS;

// Row i of w words each: zeros after the first n.
pub(crate) fn row_rest(ws: &[u64], i: usize, w: usize, n: usize) -> bool
    requires { i * w + w ≤ length ws.now }
    ensures { result ≡ rest_ok (chunk_at w ws.now i) n }
{
    let b = i * w;
    let e = b + w;
    rest_ok(&ws[b..e], n)
}

// The largest counts of a coroutine so far.
fn largest_ok(sizes: Sizes, c: CoroObj) -> bool
    ensures { result ≡ largest_in sizes c }
{
    c.maxregs <= sizes.width as u64 && c.maxframes <= sizes.depth as u64
}

// The counts of a coroutine.
fn sizes_ok(sizes: Sizes, c: CoroObj) -> bool
    ensures { result ≡ sizes_in sizes c }
{
    c.regs <= sizes.width as u64 && c.frames <= sizes.depth as u64 && largest_ok(sizes, c)
}

// The waiting register of a suspended one lies in its top frame: ws are its row's frames.
fn waits_ok(ws: &[u64], c: CoroObj) -> bool
    requires { (0 < c.frames) × (c.frames * 6 ≤ length ws.now) }
    ensures { result ≡ waits_in ws.now c }
{
    let state = c.state;
    if !state.is_suspended() {
        return true;
    }
    let n = c.frames as usize;
    let top = n - 1;
    let base = base_at(ws, top) as u64;
    base < c.regs && c.waiting < c.regs - base
}

// The frames of a resumable one, in the words of its row.
fn frames_saved(ws: &[u64], setup: &[u64], need: &[u64; MOST_FUNCTIONS], c: CoroObj) -> bool
    requires { FramesFit ws.now need.now setup.now c.frames }
    ensures { result ≡ (saved_frames_ok (setup_of setup.now) ws.now c.frames c.regs && waits_in ws.now c) }
{
    saved_frames_ok(ws, setup, need, c.frames as usize, c.regs) && waits_ok(ws, c)
}

// The frames of an unfinished one: a resumable one has some, a Running one nothing.
fn frames_in(ws: &[u64], setup: &[u64], need: &[u64; MOST_FUNCTIONS], c: CoroObj) -> bool
    requires { FramesFit ws.now need.now setup.now c.frames }
    ensures { result ≡ frames_in (setup_of setup.now) ws.now c }
{
    let state = c.state;
    if state.is_resumable() {
        return frames_saved(ws, setup, need, c);
    }
    if c.frames != 0 {
        return false;
    }
    if c.regs != 0 {
        return false;
    }
    rest_ok(ws, 0)
}

// Those of row i.
fn row_frames(
    ws: &[u64],
    i: usize,
    w: usize,
    setup: &[u64],
    need: &[u64; MOST_FUNCTIONS],
    c: CoroObj,
) -> bool
    requires { RowFits ws.now need.now setup.now i w c.frames }
    ensures { result ≡ frames_in (setup_of setup.now) (chunk_at w ws.now i) c }
{
    let b = i * w;
    let e = b + w;
    frames_in(&ws[b..e], setup, need, c)
}

// A finished one: nothing saved, and its largest counts.
fn ended_ok(sizes: Sizes, c: CoroObj) -> bool
    ensures { result ≡ (sizes_in sizes c && nothing_saved c) }
{
    if c.row != 0 {
        return false;
    }
    if c.frames != 0 {
        return false;
    }
    if c.regs != 0 {
        return false;
    }
    largest_ok(sizes, c)
}

// A coroutine: its counts; of a finished one nothing, of another its row.
pub fn coro_ok(
    saved_stack: &[u64],
    saved_frames: &[u64],
    setup: &[u64],
    need: &[u64; MOST_FUNCTIONS],
    sizes: Sizes,
    c: CoroObj,
) -> bool
    requires { SavedFits saved_stack.now saved_frames.now need.now setup.now sizes }
    ensures { result ≡ coro_test sizes (setup_of setup.now) saved_stack.now saved_frames.now c }
{
    let state = c.state;
    if state.is_finished() {
        return ended_ok(sizes, c);
    }
    if !sizes_ok(sizes, c) {
        return false;
    }
    let rows = sizes.rows as u64;
    if rows <= c.row {
        return false;
    }
    let row = c.row as usize;
    let regs = c.regs as usize;
    if !row_rest(saved_stack, row, sizes.width, regs) {
        return false;
    }
    row_frames(saved_frames, row, sizes.depth * FRAME_WIDTH, setup, need, c)
}

// A coroutine's words and frames moved between the machine and a row. `at` is the row's first word in its slice.
ghost use Rattle.std.specs.Prelude.{◌+◌, ◌-◌, ◌*◌, ◌≤◌, length};
ghost use Rattle.memory_tables.specs.Does.{EntersStack, EntersFrames, EnterFits, LeavesStack, LeavesFrames, LeaveFits};

use crate::frame::FRAME_WIDTH;
use crate::runs::{move_frames, move_words};

// The n words of a row go on top of the stack.
pub fn enter_stack(stack: &mut [u64], height: usize, saved: &mut [u64], at: usize, n: usize)
    requires { (height + n ≤ length stack.old) × (at + n ≤ length saved.old) }
    ensures { EntersStack stack.old saved.old stack.new saved.new height at n }
{
    move_words(stack, height, saved, at, n);
}

// The n frames of a row go on top of the frames, their bases higher by `by`.
pub fn enter_frames(
    frames: &mut [u64],
    depth: usize,
    saved: &mut [u64],
    at: usize,
    n: usize,
    by: u64,
)
    requires { EnterFits frames.old saved.old depth at n by }
    ensures { EntersFrames frames.old saved.old frames.new saved.new depth at n by }
{
    move_frames(frames, depth * FRAME_WIDTH, saved, at, n, 0, by);
}

// The words from `base` up go to an empty row.
pub fn leave_stack(stack: &mut [u64], height: usize, base: usize, saved: &mut [u64], at: usize)
    requires { (base ≤ height) × (height ≤ length stack.old) × (at + (height - base) ≤ length saved.old) }
    ensures { LeavesStack stack.old saved.old stack.new saved.new height base at }
{
    move_words(saved, at, stack, base, height - base);
}

// The frames from `floor` up go to an empty row, their bases lower by `by`.
pub fn leave_frames(
    frames: &mut [u64],
    depth: usize,
    floor: usize,
    by: u64,
    saved: &mut [u64],
    at: usize,
)
    requires { LeaveFits frames.old saved.old depth floor by at }
    ensures { LeavesFrames frames.old saved.old frames.new saved.new depth floor by at }
{
    move_frames(saved, at, frames, floor * FRAME_WIDTH, depth - floor, by, 0);
}

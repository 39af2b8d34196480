// The frames, bottom first in a lent slice; `depth` is their number.
ghost use Rattle.std.specs.Prelude.{◌+◌, ◌-◌, ◌*◌, ◌^◌, ◌<◌, ◌≤◌, [], ◌∷◌, length, drop, slice_index};
ghost use Rattle.model.specs.Frames.{frame, on_top, set_pc, step_pc};
ghost use Rattle.memory_tables.specs.Does.{FramesDo};

use crate::frame::{FRAME_WIDTH, PC, put_frame};
use crate::runs::clear_part;
use model::machine::{Cont, Frame};

// The pc of the top frame.
pub fn store_pc(frames: &mut [u64], depth: usize, pc: u64)
    requires { (1 ≤ depth) × (depth * 6 ≤ length frames.old) }
    ensures { FramesDo (on_top (set_pc pc)) frames.old frames.new depth depth }
{
    let at = (depth - 1) * FRAME_WIDTH + PC;
    frames[at] = pc;
}

// The pc of the top frame steps by 1, wrapping at 2^32.
pub fn step_pc(frames: &mut [u64], depth: usize)
    requires { (1 ≤ depth) × (depth * 6 ≤ length frames.old) × (slice_index frames.old ((depth - 1) * 6 + 1) < 2 ^ 32) }
    ensures { FramesDo (on_top step_pc) frames.old frames.new depth depth }
{
    let here = (depth - 1) * FRAME_WIDTH + PC;
    let pc = frames[here] as u32;
    frames[here] = std::num::wrapping_add_u32(pc, 1) as u64;
}

// One frame more, where a function begins. Its registers are the zeros after the stack.
pub fn push_frame(frames: &mut [u64], depth: usize, func: u64, base: u64, closure: u64, cont: Cont)
    requires { depth * 6 + 6 ≤ length frames.old }
    ensures { FramesDo (λ fs. frame func base closure cont ∷ fs) frames.old frames.new depth (depth + 1) }
{
    let f = Frame {
        func,
        pc: 0,
        base,
        closure,
        cont,
    };
    put_frame(frames, depth, f);
}

// The top frame goes.
pub fn pop_frame(frames: &mut [u64], depth: usize)
    requires { (1 ≤ depth) × (depth * 6 ≤ length frames.old) }
    ensures { FramesDo (drop 1) frames.old frames.new depth (depth - 1) }
{
    let at = (depth - 1) * FRAME_WIDTH;
    lists::clear_words(&mut frames[at..at + FRAME_WIDTH]);
}

// All frames go.
pub fn clear_frames(frames: &mut [u64], depth: usize)
    requires { depth * 6 ≤ length frames.old }
    ensures { FramesDo (λ _. []) frames.old frames.new depth 0 }
{
    clear_part(frames, 0, depth * FRAME_WIDTH);
}

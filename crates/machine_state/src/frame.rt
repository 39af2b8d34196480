// machine.rs: registers and frames.
ghost use Rattle.std.specs.Prelude.{◌≡◌, ◌+◌, ◌^◌, ◌≤◌, ◌<◌};
ghost use Rattle.model.specs.Frames.{store_pc, next_pc, put_reg};
ghost use Rattle.model.specs.Machine.{push_frame};
ghost use Rattle.memory_tables.specs.Does.{RegFits};
ghost use Rattle.machine_state.specs.Frame.{DepthFits, StepFits, PushFits, overflowing, pushed, push_at, CallFits, PopFits, pop_top};
ghost use Rattle.memory_world.specs.Lendings.{frame, top, top_setup};
ghost use Rattle.memory_world.specs.Contract.{Leaves, Met, any, every, if_sound, only, of_mut, of_ref};

use crate::called::Did;
use heap::fault::Fault;
use memory_world::machine::{Machine, Sizes};
use model::machine::Cont;

// The pc of the top frame.
pub fn store_pc(frames: &mut [u64], m: Machine, pc: u64)
    requires { DepthFits frames.old m.depth }
    ensures { every (λ sizes. Leaves any sizes (store_pc pc) (frame (of_mut frames)) (only m) (only m)) }
{
    memory_tables::frames::store_pc(frames, m.depth, pc);
}

// The pc of the top frame, if there is one, steps.
pub fn next_pc(frames: &mut [u64], m: Machine)
    requires { StepFits frames.old m.depth }
    ensures { every (λ sizes. Leaves any sizes next_pc (frame (of_mut frames)) (only m) (only m)) }
{
    if m.depth == 0 {
        return;
    }
    memory_tables::frames::step_pc(frames, m.depth);
}

// A word into a register of the top frame.
pub fn put(stack: &mut [u64], frames: &[u64], m: Machine, r: u64, v: u64)
    requires { RegFits stack.old frames.now m.height m.depth r }
    ensures { every (λ sizes. Leaves any sizes (put_reg r v) (top (of_mut stack) (of_ref frames)) (only m) (only m)) }
{
    memory_tables::stack::put_reg(stack, frames, m.height, m.depth, r as usize, v);
}

// Whether a frame of n registers is one too many, or too wide.
fn overflows(m: Machine, sizes: Sizes, n: u64) -> bool
    requires { m.height ≤ sizes.stack }
    ensures { result ≡ overflowing m sizes n }
{
    if sizes.depth <= m.depth {
        return true;
    }
    if ((sizes.stack - m.height) as u64) < n {
        return true;
    }
    false
}

fn grown(m: Machine, n: u64) -> Machine
    requires { (m.height + n < 2 ^ 64) × (m.depth + 1 < 2 ^ 64) }
    ensures { result ≡ pushed m n }
{
    let mut next = m;
    next.height = m.height + (n as usize);
    next.depth = m.depth + 1;
    next
}

// machine.rs: push_frame. The new registers are the zeros after the stack.
pub fn push_frame(
    stack: &[u64],
    frames: &mut [u64],
    setup: &[u64],
    m: Machine,
    sizes: Sizes,
    f: u64,
    closure: u64,
    cont: Cont,
) -> Did<Result<u64, Fault>>
    requires { PushFits sizes stack.now frames.old setup.now m f }
    ensures { Met if_sound sizes (push_frame f closure cont) (top_setup (of_ref stack) (of_mut frames) (of_ref setup)) (only m) (only result.machine) result.answer }
{
    let n = memory_tables::program::regs_at(setup, f as usize);
    if overflows(m, sizes, n) {
        return Did {
            machine: m,
            answer: Err(Fault::StackOverflow),
        };
    }
    let base = m.height as u64;
    memory_tables::frames::push_frame(frames, m.depth, f, base, closure, cont);
    Did {
        machine: grown(m, n),
        answer: Ok(base),
    }
}

// A frame pushed by a call at pc. The pc is stored only if the frame fits.
pub fn push_at(
    stack: &[u64],
    frames: &mut [u64],
    setup: &[u64],
    m: Machine,
    sizes: Sizes,
    pc: u64,
    f: u64,
    closure: u64,
    cont: Cont,
) -> Did<Result<u64, Fault>>
    requires { CallFits sizes stack.now frames.old setup.now m pc f }
    ensures { Met if_sound sizes (push_at pc f closure cont) (top_setup (of_ref stack) (of_mut frames) (of_ref setup)) (only m) (only result.machine) result.answer }
{
    let n = memory_tables::program::regs_at(setup, f as usize);
    if overflows(m, sizes, n) {
        return Did {
            machine: m,
            answer: Err(Fault::StackOverflow),
        };
    }
    store_pc(frames, m, pc);
    push_frame(stack, frames, setup, m, sizes, f, closure, cont)
}

// The top frame goes, with its registers.
pub fn pop(stack: &mut [u64], frames: &mut [u64], m: Machine) -> Machine
    requires { PopFits stack.old frames.old m }
    ensures { every (λ sizes. Leaves any sizes pop_top (top (of_mut stack) (of_mut frames)) (only m) (only result)) }
{
    let base = memory_tables::frame::base_at(frames, m.depth - 1);
    memory_tables::stack::cut(stack, m.height, base);
    memory_tables::frames::pop_frame(frames, m.depth);
    let mut next = m;
    next.height = base;
    next.depth = m.depth - 1;
    next
}

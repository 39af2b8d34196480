// coro.rs: exec, Resume. Its operands have been tested.
ghost use Rattle.model.specs.Exec.{resume};
ghost use Rattle.exec_enter.specs.Resume.{ResumeFits};
ghost use Rattle.memory_world.specs.Lendings.{six};
ghost use Rattle.memory_world.specs.Contract.{Met, if_sound, only, of_mut};

use coro_enter::arrival::enter_send;
use machine_state::called::Did;
use memory_world::machine::{Machine, Sizes};
use model::exec::Step;
use model::machine::Driver;

// coro.rs: exec, Resume.
pub fn resume(
    stack: &mut [u64],
    frames: &mut [u64],
    chain: &mut [u64],
    slots: &mut [u64],
    saved_stack: &mut [u64],
    saved_frames: &mut [u64],
    m: Machine,
    sizes: Sizes,
    pc: u64,
    dst: u64,
    c: u64,
    src: u64,
) -> Did<Step>
    requires { ResumeFits sizes stack.old frames.old chain.old slots.old saved_stack.old saved_frames.old m pc c src }
    ensures { Met if_sound sizes (resume pc dst c src) (six (of_mut stack) (of_mut frames) (of_mut chain) (of_mut slots) (of_mut saved_stack) (of_mut saved_frames)) (only m) (only result.machine) result.answer }
{
    let v = memory_tables::stack::reg(stack, frames, m.height, m.depth, c as usize);
    let sent = memory_tables::stack::reg(stack, frames, m.height, m.depth, src as usize);
    enter_send(
        stack,
        frames,
        chain,
        slots,
        saved_stack,
        saved_frames,
        m,
        sizes,
        pc,
        v,
        Driver::Resume(dst),
        sent,
    )
}

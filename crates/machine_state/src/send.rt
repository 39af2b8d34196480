// coro.rs: coro_send.
ghost use Rattle.model.specs.Coro.{coro_send};
ghost use Rattle.machine_state.specs.Send.{SendFits};
ghost use Rattle.memory_world.specs.Lendings.{top};
ghost use Rattle.memory_world.specs.Contract.{Leaves, any, every, only, of_mut};

use memory_world::machine::Machine;

// A word into a register of the top frame, whose pc then steps.
pub fn coro_send(stack: &mut [u64], frames: &mut [u64], m: Machine, dst: u64, v: u64)
    requires { SendFits stack.old frames.old m.height m.depth dst }
    ensures { every (λ sizes. Leaves any sizes (coro_send dst v) (top (of_mut stack) (of_mut frames)) (only m) (only m)) }
{
    memory_tables::stack::put_reg(stack, frames, m.height, m.depth, dst as usize, v);
    memory_tables::frames::step_pc(frames, m.depth);
}

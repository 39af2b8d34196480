// coro.rs: coro_suspend and what follows it in a Yield, where nothing is refused. The machine's numbers are read where they are used.
ghost use Rattle.std.specs.Prelude.{◌≡◌};
ghost use Rattle.model.specs.Exec.{yield};
ghost use Rattle.model.specs.declared.exec.Step.TheVariants.{Frame};
ghost use Rattle.memory_world.specs.Lendings.{six};
ghost use Rattle.memory_world.specs.Contract.{Met, if_sound, only, of_mut};
ghost use Rattle.coro_suspend.specs.Suspend.{MovedOut};
ghost use Rattle.linked_calls.specs.Words.{machine_in, sizes_in};
ghost use Rattle.linked_switch.specs.Leave.{innermost_in, MoveOutFits, LeaveAtFits, suspends_by, told_to, shrunk_to, LeaveFits, left_in};
ghost use Rattle.linked_switch.specs.Words.{entered_over};

use crate::enter::{put_numbers, send};
use linked_calls::numbers::{ACTIVE, DEPTH, DEPTH_LIMIT, HEIGHT, ROW_WIDTH};
use memory_tables::frame::FRAME_WIDTH;

// The registers and frames from the body up go to an empty row.
fn move_out(
    stack: &mut [u64],
    frames: &mut [u64],
    saved_stack: &mut [u64],
    saved_frames: &mut [u64],
    machine: &[u64],
    row: u64,
    floor: usize,
    base: usize,
)
    requires { MoveOutFits stack.old frames.old saved_stack.old saved_frames.old machine.now row floor base }
    ensures { MovedOut stack.old frames.old saved_stack.old saved_frames.old stack.new
        frames.new saved_stack.new saved_frames.new (machine_in machine.now) (sizes_in
        machine.now) row floor base }
{
    let at = (row as usize) * (machine[ROW_WIDTH] as usize);
    memory_tables::rows::leave_stack(stack, machine[HEIGHT] as usize, base, saved_stack, at);
    let from = (row as usize) * ((machine[DEPTH_LIMIT] as usize) * FRAME_WIDTH);
    memory_tables::rows::leave_frames(
        frames,
        machine[DEPTH] as usize,
        floor,
        base as u64,
        saved_frames,
        from,
    );
}

// The innermost coroutine, in slot i, leaves what lies below `floor` and `base`.
fn leave_at(
    stack: &mut [u64],
    frames: &mut [u64],
    chain: &mut [u64],
    slots: &mut [u64],
    saved_stack: &mut [u64],
    saved_frames: &mut [u64],
    machine: &[u64],
    dst: u64,
    payload: u64,
    key: u64,
    largest: u64,
    i: usize,
    floor: usize,
    base: usize,
)
    requires { LeaveAtFits stack.old frames.old chain.old slots.old saved_stack.old saved_frames.old machine.now i floor base }
    ensures { Met if_sound (sizes_in machine.now) (suspends_by dst payload key largest)
        (six (of_mut stack) (of_mut frames) (of_mut chain) (of_mut slots) (of_mut saved_stack) (of_mut saved_frames)) (only (machine_in machine.now)) (only (shrunk_to
        machine.now base floor)) (told_to (innermost_in chain.old (machine_in machine.now)).driver payload key) }
{
    let row = heap::field::row_at(slots, i);
    move_out(
        stack,
        frames,
        saved_stack,
        saved_frames,
        machine,
        row,
        floor,
        base,
    );
    memory_tables::chain::pop_active(chain, machine[ACTIVE] as usize);
    let regs = machine[HEIGHT] - (base as u64);
    let deep = machine[DEPTH] - (floor as u64);
    heap::slot::put_yielded(slots, i, regs, deep, dst, payload, key, largest);
}

// A Yield of the innermost coroutine, in slot i, to its driver.
pub(crate) fn leave(
    stack: &mut [u64],
    frames: &mut [u64],
    chain: &mut [u64],
    slots: &mut [u64],
    saved_stack: &mut [u64],
    saved_frames: &mut [u64],
    machine: &mut [u64],
    pc: u64,
    dst: u64,
    src: u64,
    i: usize,
    to: u64,
    key: u64,
    largest: u64,
)
    requires { LeaveFits stack.old frames.old chain.old slots.old saved_stack.old saved_frames.old machine.old pc src i to key largest }
    ensures { (machine.new ≡ entered_over (left_in frames.old chain.old machine.old)
        machine.old) × Met if_sound (sizes_in machine.old) (yield pc dst src)
        (six (of_mut stack) (of_mut frames) (of_mut chain) (of_mut slots) (of_mut saved_stack) (of_mut saved_frames)) (only (machine_in machine.old)) (only (left_in frames.old
        chain.old machine.old)) Frame }
{
    let payload = memory_tables::stack::reg(
        stack,
        frames,
        machine[HEIGHT] as usize,
        machine[DEPTH] as usize,
        src as usize,
    );
    memory_tables::frames::store_pc(frames, machine[DEPTH] as usize, pc);
    let active = machine[ACTIVE] - 1;
    let a = memory_tables::active::active_at(chain, active as usize);
    let floor = a.floor as usize;
    let base = memory_tables::frame::base_at(frames, floor);
    leave_at(
        stack,
        frames,
        chain,
        slots,
        saved_stack,
        saved_frames,
        machine,
        dst,
        payload,
        key,
        largest,
        i,
        floor,
        base,
    );
    put_numbers(machine, base as u64, a.floor, active);
    send(stack, frames, base, floor, to, payload);
}

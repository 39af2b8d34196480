// coro.rs: coro_enter and what follows it in a Resume, where nothing is refused. The machine's numbers are read where they are used.
ghost use Rattle.std.specs.Prelude.{◌≡◌, ◌≤◌, length, set};
ghost use Rattle.linked_calls.specs.Words.{sizes_in, machine_in};
ghost use Rattle.linked_switch.specs.Words.{record_at, entered_over};
ghost use Rattle.linked_switch.specs.Enter.{MoveInFits, EnterAtFits, enters_by, Sends, EnterFits, resumes_by};
ghost use Rattle.coro_enter.specs.Enter.{Moves, grown, entered_as};
ghost use Rattle.machine_state.specs.Send.{SendFits};
ghost use Rattle.model.specs.declared.exec.Step.TheVariants.{Frame};
ghost use Rattle.memory_world.specs.Lendings.{six};
ghost use Rattle.memory_world.specs.Contract.{Met, if_sound, only, of_mut};

use heap::field::{frames_at, regs_at, row_at, state_at, waiting_at};
use linked_calls::numbers::{ACTIVE, DEPTH, DEPTH_LIMIT, HEIGHT, ROW_WIDTH};
use memory_tables::frame::FRAME_WIDTH;
use model::machine::Driver;

// The row's registers and frames on top of the machine's.
fn move_in(
    stack: &mut [u64],
    frames: &mut [u64],
    slots: &[u64],
    saved_stack: &mut [u64],
    saved_frames: &mut [u64],
    machine: &[u64],
    i: usize,
)
    requires { MoveInFits stack.old frames.old slots.now saved_stack.old saved_frames.old machine.now i }
    ensures { Moves stack.old frames.old saved_stack.old saved_frames.old stack.new
        frames.new saved_stack.new saved_frames.new (machine_in machine.now).height (machine_in
        machine.now).depth (sizes_in machine.now) (record_at slots.now i) }
{
    let at = (row_at(slots, i) as usize) * (machine[ROW_WIDTH] as usize);
    memory_tables::rows::enter_stack(
        stack,
        machine[HEIGHT] as usize,
        saved_stack,
        at,
        regs_at(slots, i) as usize,
    );
    let from = (row_at(slots, i) as usize) * ((machine[DEPTH_LIMIT] as usize) * FRAME_WIDTH);
    memory_tables::rows::enter_frames(
        frames,
        machine[DEPTH] as usize,
        saved_frames,
        from,
        frames_at(slots, i) as usize,
        machine[HEIGHT],
    );
}

// The coroutine in slot i, whose word is v, is entered by a Resume.
fn enter_at(
    stack: &mut [u64],
    frames: &mut [u64],
    chain: &mut [u64],
    slots: &mut [u64],
    saved_stack: &mut [u64],
    saved_frames: &mut [u64],
    machine: &[u64],
    v: u64,
    dst: u64,
    i: usize,
)
    requires { EnterAtFits stack.old frames.old chain.old slots.old saved_stack.old saved_frames.old machine.now v i }
    ensures { Met if_sound (sizes_in machine.now) (enters_by v dst) (six (of_mut stack) (of_mut frames) (of_mut chain) (of_mut slots) (of_mut saved_stack) (of_mut saved_frames))
        (only (machine_in machine.now)) (only (grown (machine_in machine.now) (record_at
        slots.old i))) (entered_as (record_at slots.old i)) }
{
    move_in(stack, frames, slots, saved_stack, saved_frames, machine, i);
    memory_tables::chain::push_active(
        chain,
        machine[ACTIVE] as usize,
        v,
        machine[DEPTH],
        Driver::Resume(dst),
    );
    heap::slot::put_entered(slots, i);
}

// The numbers that an entry changes.
pub(crate) fn put_numbers(machine: &mut [u64], height: u64, depth: u64, active: u64)
    requires { 25 ≤ length machine.old }
    ensures { machine.new ≡ set (set (set machine.old 0 height) 1 depth) 2 active }
{
    machine[HEIGHT] = height;
    machine[DEPTH] = depth;
    machine[ACTIVE] = active;
}

// coro.rs: coro_send.
pub(crate) fn send(
    stack: &mut [u64],
    frames: &mut [u64],
    height: usize,
    depth: usize,
    r: u64,
    v: u64,
)
    requires { SendFits stack.old frames.old height depth r }
    ensures { Sends stack.old frames.old stack.new frames.new height depth r v }
{
    memory_tables::stack::put_reg(stack, frames, height, depth, r as usize, v);
    memory_tables::frames::step_pc(frames, depth);
}

// A Resume of the coroutine in slot i, whose word is v.
pub(crate) fn enter(
    stack: &mut [u64],
    frames: &mut [u64],
    chain: &mut [u64],
    slots: &mut [u64],
    saved_stack: &mut [u64],
    saved_frames: &mut [u64],
    machine: &mut [u64],
    pc: u64,
    dst: u64,
    src: u64,
    v: u64,
    i: usize,
)
    requires { EnterFits stack.old frames.old chain.old slots.old saved_stack.old saved_frames.old machine.old pc src v i }
    ensures { (machine.new ≡ entered_over (grown (machine_in machine.old) (record_at slots.old i))
        machine.old) × Met if_sound (sizes_in machine.old) (resumes_by pc dst src v)
        (six (of_mut stack) (of_mut frames) (of_mut chain) (of_mut slots) (of_mut saved_stack) (of_mut saved_frames)) (only (machine_in machine.old)) (only (grown (machine_in
        machine.old) (record_at slots.old i))) Frame }
{
    let sent = memory_tables::stack::reg(
        stack,
        frames,
        machine[HEIGHT] as usize,
        machine[DEPTH] as usize,
        src as usize,
    );
    memory_tables::frames::store_pc(frames, machine[DEPTH] as usize, pc);
    let state = state_at(slots, i);
    let regs = regs_at(slots, i);
    let deep = frames_at(slots, i);
    let waiting = waiting_at(slots, i);
    enter_at(
        stack,
        frames,
        chain,
        slots,
        saved_stack,
        saved_frames,
        machine,
        v,
        dst,
        i,
    );
    let height = machine[HEIGHT] + regs;
    let depth = machine[DEPTH] + deep;
    let active = machine[ACTIVE] + 1;
    put_numbers(machine, height, depth, active);
    if !state.is_created() {
        send(
            stack,
            frames,
            height as usize,
            depth as usize,
            waiting,
            sent,
        );
    }
}

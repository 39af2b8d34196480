// Yield: its gate and its charge are passed, and the innermost coroutine is suspended.
ghost use Rattle.std.specs.Prelude.{get_or};
ghost use Rattle.linked_switch.specs.Leaves.{may_leave};
ghost use Rattle.linked_switch.specs.Yield.{YieldAtFits};
ghost use Rattle.linked_switch.specs.Went.{Went};
ghost use Rattle.linked_switch.specs.Switch.{SwitchFits, Switched};
ghost use Rattle.model.specs.declared.call.Op.TheVariants.{Yield};
ghost use Rattle.memory_world.specs.Lendings.{six, plain};
ghost use Rattle.memory_world.specs.Contract.{at_entry, at_exit, of_mut};

use crate::leave::leave;
use crate::leaves::may_leave;
use linked_calls::numbers::FUEL;

// One unit of fuel, then the suspension.
pub fn yield_at(
    stack: &mut [u64],
    frames: &mut [u64],
    chain: &mut [u64],
    slots: &mut [u64],
    saved_stack: &mut [u64],
    saved_frames: &mut [u64],
    machine: &mut [u64],
    fuel: &mut [u64],
    pc: u64,
    dst: u64,
    src: u64,
    i: usize,
    to: u64,
    key: u64,
    largest: u64,
)
    requires { YieldAtFits stack.old frames.old chain.old slots.old saved_stack.old saved_frames.old machine.old fuel.old pc dst src i to key largest }
    ensures { Went (Yield pc dst src) (six (of_mut stack) (of_mut frames) (of_mut chain) (of_mut slots) (of_mut saved_stack) (of_mut saved_frames) at_entry) (six (of_mut stack) (of_mut frames) (of_mut chain) (of_mut slots) (of_mut saved_stack) (of_mut saved_frames) at_exit) machine.old fuel.old machine.new fuel.new }
{
    fuel[FUEL] = fuel[FUEL] - 1;
    leave(
        stack,
        frames,
        chain,
        slots,
        saved_stack,
        saved_frames,
        machine,
        pc,
        dst,
        src,
        i,
        to,
        key,
        largest,
    );
}

// A Yield that nothing refuses, to a Resume, with gate and charge, on a machine that is known to be sound: 1. Of any other nothing is done: 0.
pub fn bvm_try_yield_unchecked(
    stack: &mut [u64],
    frames: &mut [u64],
    chain: &mut [u64],
    slots: &mut [u64],
    saved_stack: &mut [u64],
    saved_frames: &mut [u64],
    machine: &mut [u64],
    fuel: &mut [u64],
    pc: u32,
    dst: u16,
    src: u16,
) -> u64
    requires { SwitchFits (six stack.old frames.old chain.old slots.old saved_stack.old saved_frames.old plain) machine.old fuel.old }
    ensures { Switched (Yield pc dst src) (may_leave frames.old chain.old slots.old machine.old (get_or fuel.old 0 0) dst src)
        (six (of_mut stack) (of_mut frames) (of_mut chain) (of_mut slots) (of_mut saved_stack) (of_mut saved_frames) at_entry) (six (of_mut stack) (of_mut frames) (of_mut chain) (of_mut slots) (of_mut saved_stack) (of_mut saved_frames) at_exit)
        machine.old fuel.old machine.new fuel.new result }
{
    match may_leave(
        frames, chain, slots, machine, fuel[FUEL], dst as u64, src as u64,
    ) {
        Some(s) => {
            yield_at(
                stack,
                frames,
                chain,
                slots,
                saved_stack,
                saved_frames,
                machine,
                fuel,
                pc as u64,
                dst as u64,
                src as u64,
                s.slot,
                s.to,
                s.key,
                s.largest,
            );
            1
        }
        None => 0,
    }
}

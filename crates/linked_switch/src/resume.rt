// Resume, where nothing refuses it: its gate and its charge are passed, and the coroutine in slot i is entered.
ghost use Rattle.std.specs.Prelude.{get_or};
ghost use Rattle.linked_switch.specs.Enters.{may_enter};
ghost use Rattle.linked_switch.specs.Resume.{ResumeAtFits};
ghost use Rattle.linked_switch.specs.Went.{Went};
ghost use Rattle.linked_switch.specs.Switch.{SwitchFits, Switched};
ghost use Rattle.model.specs.declared.call.Op.TheVariants.{Resume};
ghost use Rattle.memory_world.specs.Lendings.{six, plain};
ghost use Rattle.memory_world.specs.Contract.{at_entry, at_exit, of_mut};

use crate::enter::enter;
use crate::enters::may_enter;
use linked_calls::numbers::FUEL;

// One unit of fuel, then the entry.
pub fn resume_at(
    stack: &mut [u64],
    frames: &mut [u64],
    chain: &mut [u64],
    slots: &mut [u64],
    saved_stack: &mut [u64],
    saved_frames: &mut [u64],
    machine: &mut [u64],
    fuel: &mut [u64],
    pc: u64,
    dst: u64,
    c: u64,
    src: u64,
    v: u64,
    i: usize,
)
    requires { ResumeAtFits stack.old frames.old chain.old slots.old saved_stack.old saved_frames.old machine.old fuel.old pc dst c src v i }
    ensures { Went (Resume pc dst c src) (six (of_mut stack) (of_mut frames) (of_mut chain) (of_mut slots) (of_mut saved_stack) (of_mut saved_frames) at_entry) (six (of_mut stack) (of_mut frames) (of_mut chain) (of_mut slots) (of_mut saved_stack) (of_mut saved_frames) at_exit) machine.old fuel.old machine.new fuel.new }
{
    fuel[FUEL] = fuel[FUEL] - 1;
    enter(
        stack,
        frames,
        chain,
        slots,
        saved_stack,
        saved_frames,
        machine,
        pc,
        dst,
        src,
        v,
        i,
    );
}

// A Resume that nothing refuses, with gate and charge, on a machine that is known to be sound: 1. Of any other nothing is done: 0.
pub fn bvm_try_resume_unchecked(
    stack: &mut [u64],
    frames: &mut [u64],
    chain: &mut [u64],
    slots: &mut [u64],
    saved_stack: &mut [u64],
    saved_frames: &mut [u64],
    machine: &mut [u64],
    fuel: &mut [u64],
    pc: u32,
    dst: u16,
    coro: u16,
    src: u16,
) -> u64
    requires { SwitchFits (six stack.old frames.old chain.old slots.old saved_stack.old saved_frames.old plain) machine.old fuel.old }
    ensures { Switched (Resume pc dst coro src) (may_enter stack.old frames.old slots.old machine.old (get_or fuel.old 0 0) dst coro src)
        (six (of_mut stack) (of_mut frames) (of_mut chain) (of_mut slots) (of_mut saved_stack) (of_mut saved_frames) at_entry) (six (of_mut stack) (of_mut frames) (of_mut chain) (of_mut slots) (of_mut saved_stack) (of_mut saved_frames) at_exit)
        machine.old fuel.old machine.new fuel.new result }
{
    match may_enter(
        stack,
        frames,
        slots,
        machine,
        fuel[FUEL],
        dst as u64,
        coro as u64,
        src as u64,
    ) {
        Some((i, v)) => {
            resume_at(
                stack,
                frames,
                chain,
                slots,
                saved_stack,
                saved_frames,
                machine,
                fuel,
                pc as u64,
                dst as u64,
                coro as u64,
                src as u64,
                v,
                i,
            );
            1
        }
        None => 0,
    }
}

// The two switches of linked_switch for C and Rust programs to link (docs/ABI.md): each is the library's of the same name.
#![tactic(auto)]

ghost use Rattle.std.specs.Prelude.{get_or};
ghost use Rattle.linked_switch.specs.Enters.{may_enter};
ghost use Rattle.linked_switch.specs.Switch.{SwitchFits, Switched};
ghost use Rattle.model.specs.declared.call.Op.TheVariants.{Resume, Yield};
ghost use Rattle.memory_world.specs.Lendings.{six, plain};
ghost use Rattle.memory_world.specs.Contract.{at_entry, at_exit, of_mut};
ghost use Rattle.linked_switch.specs.Leaves.{may_leave};

// A Resume that nothing refuses, with gate and charge, on a machine that is known to be sound: 1. Of any other nothing is done: 0.
#[unsafe(no_mangle)]
pub extern "C" fn bvm_try_resume_unchecked(
    stack: &mut [u64],
    frames: &mut [u64],
    chain: &mut [u64],
    slots: &mut [u64],
    saved_stack: &mut [u64],
    saved_frames: &mut [u64],
    machine: &mut [u64],
    fuel: &mut [u64],
    pc: u32,
    dst: u16,
    coro: u16,
    src: u16,
) -> u64
    requires { SwitchFits (six stack.old frames.old chain.old slots.old saved_stack.old saved_frames.old plain) machine.old fuel.old }
    ensures { Switched (Resume pc dst coro src) (may_enter stack.old frames.old slots.old machine.old (get_or fuel.old 0 0) dst coro src)
        (six (of_mut stack) (of_mut frames) (of_mut chain) (of_mut slots) (of_mut saved_stack) (of_mut saved_frames) at_entry) (six (of_mut stack) (of_mut frames) (of_mut chain) (of_mut slots) (of_mut saved_stack) (of_mut saved_frames) at_exit)
        machine.old fuel.old machine.new fuel.new result }
{
    linked_switch::resume::bvm_try_resume_unchecked(
        stack,
        frames,
        chain,
        slots,
        saved_stack,
        saved_frames,
        machine,
        fuel,
        pc,
        dst,
        coro,
        src,
    )
}

// A Yield that nothing refuses, to a Resume, with gate and charge, on a machine that is known to be sound: 1. Of any other nothing is done: 0.
#[unsafe(no_mangle)]
pub extern "C" fn bvm_try_yield_unchecked(
    stack: &mut [u64],
    frames: &mut [u64],
    chain: &mut [u64],
    slots: &mut [u64],
    saved_stack: &mut [u64],
    saved_frames: &mut [u64],
    machine: &mut [u64],
    fuel: &mut [u64],
    pc: u32,
    dst: u16,
    src: u16,
) -> u64
    requires { SwitchFits (six stack.old frames.old chain.old slots.old saved_stack.old saved_frames.old plain) machine.old fuel.old }
    ensures { Switched (Yield pc dst src) (may_leave frames.old chain.old slots.old machine.old (get_or fuel.old 0 0) dst src)
        (six (of_mut stack) (of_mut frames) (of_mut chain) (of_mut slots) (of_mut saved_stack) (of_mut saved_frames) at_entry) (six (of_mut stack) (of_mut frames) (of_mut chain) (of_mut slots) (of_mut saved_stack) (of_mut saved_frames) at_exit)
        machine.old fuel.old machine.new fuel.new result }
{
    linked_switch::yielding::bvm_try_yield_unchecked(
        stack,
        frames,
        chain,
        slots,
        saved_stack,
        saved_frames,
        machine,
        fuel,
        pc,
        dst,
        src,
    )
}

// 01: "Each tests 11 first, then 12 or 15, then 13 or 16, then what its Rust function tests." 11 is the caller's.
ghost use Rattle.model.specs.declared.call.Op.TheVariants.{HostCall, HostEntry, FunctionCall, PutWord};
ghost use Rattle.machine_step.specs.Kept.{did};
ghost use Rattle.memory_world.specs.Lendings.{six, top_setup, plain};
ghost use Rattle.memory_world.specs.Contract.{Met, Ok, if_sound, only, of_mut, of_ref};

use exec_instruction::operands::passes;
use heap::fault::Fault;
use machine_state::called::Did;
use memory_tables::layout;
use memory_world::machine::{Machine, Sizes};
use model::call::{Answer, Op};
use model::machine::Cont;

// Host call.
pub(crate) fn host_call(
    stack: &[u64],
    frames: &mut [u64],
    setup: &[u64],
    m: Machine,
    sizes: Sizes,
    f: u32,
) -> Did<Answer>
    requires { Ok sizes (top_setup stack.now frames.old setup.now plain) (only m) }
    ensures { Met if_sound sizes (did (HostCall f)) (top_setup (of_ref stack) (of_mut frames) (of_ref setup)) (only m) (only result.machine) result.answer }
{
    if m.depth != 0 {
        return Did {
            machine: m,
            answer: Answer::Refused(Fault::Busy),
        };
    }
    if !memory_tables::program::is_function(setup, f as u64) {
        return Did {
            machine: m,
            answer: Answer::Refused(Fault::BadOperand),
        };
    }
    machine_added::call::host_call(stack, frames, setup, m, sizes, f as u64)
}

// Host entry.
pub(crate) fn host_entry(
    stack: &mut [u64],
    frames: &mut [u64],
    chain: &mut [u64],
    slots: &mut [u64],
    saved_stack: &mut [u64],
    saved_frames: &mut [u64],
    m: Machine,
    sizes: Sizes,
    c: u64,
    v: u64,
) -> Did<Answer>
    requires { Ok sizes (six stack.old frames.old chain.old slots.old saved_stack.old saved_frames.old plain) (only m) }
    ensures { Met if_sound sizes (did (HostEntry c v)) (six (of_mut stack) (of_mut frames) (of_mut chain) (of_mut slots) (of_mut saved_stack) (of_mut saved_frames)) (only m) (only result.machine) result.answer }
{
    if m.depth != 0 {
        return Did {
            machine: m,
            answer: Answer::Refused(Fault::Busy),
        };
    }
    machine_added::entry::host_entry(
        stack,
        frames,
        chain,
        slots,
        saved_stack,
        saved_frames,
        m,
        sizes,
        c,
        v,
    )
}

// Function call.
pub(crate) fn function_call(
    stack: &[u64],
    frames: &mut [u64],
    setup: &[u64],
    m: Machine,
    sizes: Sizes,
    pc: u32,
    f: u32,
    cont: Cont,
) -> Did<Answer>
    requires { Ok sizes (top_setup stack.now frames.old setup.now plain) (only m) }
    ensures { Met if_sound sizes (did (FunctionCall pc f cont)) (top_setup (of_ref stack) (of_mut frames) (of_ref setup)) (only m) (only result.machine) result.answer }
{
    if m.depth == 0 {
        return Did {
            machine: m,
            answer: Answer::Refused(Fault::NoFrame),
        };
    }
    let base = memory_tables::frame::base_at(frames, m.depth - 1);
    let op = Op::FunctionCall { pc, func: f, cont };
    if !passes(setup[layout::FUNCTIONS], base as u64, m.height as u64, op) {
        return Did {
            machine: m,
            answer: Answer::Refused(Fault::BadOperand),
        };
    }
    machine_added::call::function_call(stack, frames, setup, m, sizes, pc as u64, f as u64, cont)
}

// Put word.
pub(crate) fn put_word(
    stack: &mut [u64],
    frames: &[u64],
    setup: &[u64],
    m: Machine,
    sizes: Sizes,
    r: u16,
    v: u64,
) -> Answer
    requires { Ok sizes (top_setup stack.old frames.now setup.now plain) (only m) }
    ensures { Met if_sound sizes (did (PutWord r v)) (top_setup (of_mut stack) (of_ref frames) (of_ref setup)) (only m) (only m) result }
{
    if m.depth == 0 {
        return Answer::Refused(Fault::NoFrame);
    }
    let base = memory_tables::frame::base_at(frames, m.depth - 1);
    let op = Op::PutWord { reg: r, word: v };
    if !passes(setup[layout::FUNCTIONS], base as u64, m.height as u64, op) {
        return Answer::Refused(Fault::BadOperand);
    }
    machine_added::call::put_word(stack, frames, m, r as u64, v)
}

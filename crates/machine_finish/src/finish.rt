// machine.rs: finish, of the top frame.
ghost use Rattle.model.specs.Machine.{resume_in, finish};
ghost use Rattle.model.specs.declared.machine.Cont.TheVariants.{Coro};
ghost use Rattle.machine_state.specs.Frame.{StepFits};
ghost use Rattle.machine_finish.specs.Finish.{TopFits, EndFits};
ghost use Rattle.memory_world.specs.Lendings.{frame, six, top_table, plain};
ghost use Rattle.memory_world.specs.Contract.{Met, Ok, any, every, if_sound, only, with, of_mut};

use crate::cont::{apply_cont, result_of};
use crate::convert::to_dyn;
use coro_end::returned::coro_returned;
use heap::fault::Fault;
use heap::heap::ResultKind;
use machine_state::called::{Called, Did};
use machine_state::frame::{next_pc, pop};
use machine_state::way::{Way, way_of};
use memory_world::machine::{Machine, Sizes};
use model::call::Answer;
use model::machine::{Cont, Fuel};

// The caller goes on, unless its result was refused.
fn resume_in(frames: &mut [u64], m: Machine, r: Result<(), Fault>) -> Answer
    requires { StepFits frames.old m.depth }
    ensures { every (λ sizes. Met any sizes (λ w. resume_in w r) (frame (of_mut frames)) (only m) (only m) result) }
{
    match r {
        Ok(()) => {
            next_pc(frames, m);
            Answer::Resume
        }
        Err(f) => Answer::Refused(f),
    }
}

// A call ends: its frame goes, and the result to its caller.
fn end_call(
    stack: &mut [u64],
    frames: &mut [u64],
    slots: &mut [u64],
    m: Machine,
    sizes: Sizes,
    cont: Cont,
    kind: ResultKind,
    v: u64,
) -> Did<Answer>
    requires { EndFits sizes (top_table stack.old frames.old slots.old plain) m cont }
    ensures { Met any sizes (finish kind v) (top_table (of_mut stack) (of_mut frames) (of_mut slots)) (only m) (only result.machine) result.answer }
{
    let n = pop(stack, frames, m);
    let did = apply_cont(stack, frames, slots, n, sizes, cont, kind, v);
    let k = did.machine;
    let applied = did.answer;
    let answer = resume_in(frames, k, applied);
    Did { machine: k, answer }
}

// machine.rs: finish_coro. A body ends, and its result goes to whoever drove it; one that does not convert leaves the frame.
fn finish_coro(
    stack: &mut [u64],
    frames: &mut [u64],
    chain: &mut [u64],
    slots: &mut [u64],
    saved_stack: &mut [u64],
    saved_frames: &mut [u64],
    m: Machine,
    sizes: Sizes,
    fuel: Fuel,
    kind: ResultKind,
    v: u64,
) -> Called<Answer>
    requires { TopFits sizes (six stack.old frames.old chain.old slots.old saved_stack.old saved_frames.old plain) m Coro }
    ensures { Met if_sound sizes (finish kind v) (six (of_mut stack) (of_mut frames) (of_mut chain) (of_mut slots) (of_mut saved_stack) (of_mut saved_frames)) (with m fuel) (with result.machine result.fuel) result.answer }
{
    let did = to_dyn(slots, m, sizes, kind, v);
    let n = did.machine;
    let made = did.answer;
    match made {
        Err(e) => Called {
            machine: n,
            fuel,
            answer: Answer::Refused(e),
        },
        Ok(x) => {
            let k = pop(stack, frames, n);
            let told = coro_returned(
                stack,
                frames,
                chain,
                slots,
                saved_stack,
                saved_frames,
                k,
                sizes,
                fuel,
                x,
            );
            let after = told.machine;
            let left = told.fuel;
            Called {
                machine: after,
                fuel: left,
                answer: Answer::Resume,
            }
        }
    }
}

// machine.rs: finish. Without a frame, or from the frame of an entry, the result leaves the machine.
pub fn finish(
    stack: &mut [u64],
    frames: &mut [u64],
    chain: &mut [u64],
    slots: &mut [u64],
    saved_stack: &mut [u64],
    saved_frames: &mut [u64],
    m: Machine,
    sizes: Sizes,
    fuel: Fuel,
    kind: ResultKind,
    v: u64,
) -> Called<Answer>
    requires { Ok sizes (six stack.old frames.old chain.old slots.old saved_stack.old saved_frames.old plain) (only m) }
    ensures { Met if_sound sizes (finish kind v) (six (of_mut stack) (of_mut frames) (of_mut chain) (of_mut slots) (of_mut saved_stack) (of_mut saved_frames)) (with m fuel) (with result.machine result.fuel) result.answer }
{
    if m.depth == 0 {
        let answer = Answer::Exit(result_of(kind, v));
        return Called {
            machine: m,
            fuel,
            answer,
        };
    }
    let f = memory_tables::frame::frame_at(frames, m.depth - 1);
    let cont = f.cont;
    match way_of(cont) {
        Way::Out => {
            let n = pop(stack, frames, m);
            let result = result_of(kind, v);
            Called {
                machine: n,
                fuel,
                answer: Answer::Exit(result),
            }
        }
        Way::Caller => {
            let did = end_call(stack, frames, slots, m, sizes, cont, kind, v);
            let n = did.machine;
            let answer = did.answer;
            Called {
                machine: n,
                fuel,
                answer,
            }
        }
        Way::Driver => finish_coro(
            stack,
            frames,
            chain,
            slots,
            saved_stack,
            saved_frames,
            m,
            sizes,
            fuel,
            kind,
            v,
        ),
    }
}

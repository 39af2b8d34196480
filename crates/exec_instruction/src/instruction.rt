// 01: "Gate. Order: 11, 12, 13, then `exec::charge` (10), then the instruction's own tests as the Rust orders them." 11 is the caller's.
ghost use Rattle.std.specs.Prelude.{◌≡◌};
ghost use Rattle.model.specs.Gate.{answer_of, instruction};
ghost use Rattle.exec_arm.specs.Arm.{OfInstruction};
ghost use Rattle.exec_instruction.specs.Instruction.{gating};
ghost use Rattle.memory_world.specs.Contract.{Met, Ok, if_sound, with, of_mut, of_ref};
ghost use Rattle.memory_world.specs.Lendings.{plain};

use crate::operands::{passes, pc_of};
use coro_clean::charge::charge;
use exec_arm::body::body;
use heap::fault::Fault;
use machine_state::called::Called;
use memory_tables::layout;
use memory_world::machine::{Machine, Sizes};
use model::call::{Answer, Op};
use model::exec::Step;
use model::machine::{Charge, Fuel};

// The answer to an instruction, whose charge took so many words off the cleanup queue.
fn answer_of(taken: u64, step: Step) -> Answer
    ensures { result ≡ answer_of taken step }
{
    match step {
        Step::Next => Answer::Stepped { step, taken },
        Step::Frame => Answer::Stepped { step, taken },
        Step::Fault(f) => {
            if f.number() == 10 {
                return Answer::Unpaid { taken };
            }
            Answer::Stepped { step, taken }
        }
        Step::Unwind(_) => Answer::Stepped { step, taken },
    }
}

// An instruction; nothing is said of another call.
pub fn instruction(
    stack: &mut [u64],
    frames: &mut [u64],
    chain: &mut [u64],
    slots: &mut [u64],
    saved_stack: &mut [u64],
    saved_frames: &mut [u64],
    finalize: &mut [u64],
    setup: &[u64],
    m: Machine,
    sizes: Sizes,
    fuel: Fuel,
    op: Op,
) -> Called<Answer>
    requires { Ok sizes (gating stack.old frames.old chain.old slots.old saved_stack.old saved_frames.old finalize.old setup.now plain) (with m fuel) }
    ensures { OfInstruction op (λ pc operands arm. Met if_sound sizes (λ w. instruction pc (operands w) arm w) (gating (of_mut stack) (of_mut frames) (of_mut chain) (of_mut slots) (of_mut saved_stack) (of_mut saved_frames) (of_mut finalize) (of_ref setup)) (with m fuel) (with result.machine result.fuel) result.answer) }
{
    if m.depth == 0 {
        return Called {
            machine: m,
            fuel,
            answer: Answer::Refused(Fault::NoFrame),
        };
    }
    let base = memory_tables::frame::base_at(frames, m.depth - 1);
    if !passes(setup[layout::FUNCTIONS], base as u64, m.height as u64, op) {
        return Called {
            machine: m,
            fuel,
            answer: Answer::Refused(Fault::BadOperand),
        };
    }
    let paid = charge(
        stack,
        frames,
        chain,
        slots,
        saved_stack,
        saved_frames,
        finalize,
        m,
        sizes,
        fuel,
        pc_of(op),
    );
    let n = paid.machine;
    let f = paid.fuel;
    let a = paid.answer;
    match a {
        Charge::Spent => Called {
            machine: n,
            fuel: f,
            answer: Answer::Stepped {
                step: Step::Fault(Fault::OutOfFuel),
                taken: 0,
            },
        },
        Charge::Close(taken) => Called {
            machine: n,
            fuel: f,
            answer: Answer::Cleanup { taken },
        },
        Charge::Done(taken) => {
            let did = body(
                stack,
                frames,
                chain,
                slots,
                saved_stack,
                saved_frames,
                setup,
                n,
                sizes,
                f,
                op,
            );
            let machine = did.machine;
            let g = did.fuel;
            let s = did.answer;
            let answer = answer_of(taken, s);
            Called {
                machine,
                fuel: g,
                answer,
            }
        }
    }
}

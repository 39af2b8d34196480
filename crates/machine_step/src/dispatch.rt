// A call on sound words, by the operation.
ghost use Rattle.machine_step.specs.Kept.{did, DispatchFits};
ghost use Rattle.memory_world.specs.Lendings.{all, plain};
ghost use Rattle.memory_world.specs.Contract.{Met, if_sound, with, of_mut, of_ref};

use crate::gates::{function_call, host_call, host_entry, put_word};
use coro_clean::join::{hand_over, spawn_task};
use exec_instruction::instruction::instruction;
use heap::value::Word;
use machine_added::fuel::grant;
use machine_added::iterator::{made_as, make_iterator};
use machine_added::outcome::take_outcome;
use machine_added::stop::stop_run;
use machine_finish::finish::finish;
use machine_state::called::Called;
use machine_unwind::unwind::unwind;
use memory_world::machine::{Machine, Sizes};
use model::call::{Answer, Op};
use model::machine::Fuel;

pub(crate) fn dispatch(
    stack: &mut [u64],
    frames: &mut [u64],
    chain: &mut [u64],
    slots: &mut [u64],
    saved_stack: &mut [u64],
    saved_frames: &mut [u64],
    ready: &mut [u64],
    finalize: &mut [u64],
    setup: &[u64],
    m: Machine,
    sizes: Sizes,
    fuel: Fuel,
    op: Op,
) -> Called<Answer>
    requires { DispatchFits sizes (all stack.old frames.old chain.old slots.old saved_stack.old saved_frames.old ready.old finalize.old setup.now plain) m fuel op }
    ensures { Met if_sound sizes (did op) (all (of_mut stack) (of_mut frames) (of_mut chain) (of_mut slots) (of_mut saved_stack) (of_mut saved_frames) (of_mut ready) (of_mut finalize) (of_ref setup)) (with m fuel) (with result.machine result.fuel) result.answer }
{
    match op {
        Op::Finish { kind, word } => {
            let did = finish(
                stack,
                frames,
                chain,
                slots,
                saved_stack,
                saved_frames,
                m,
                sizes,
                fuel,
                kind,
                word,
            );
            let machine = did.machine;
            let f = did.fuel;
            let answer = did.answer;
            Called {
                machine,
                fuel: f,
                answer,
            }
        }
        Op::Unwind { fault, pc } => {
            let did = unwind(
                stack,
                frames,
                chain,
                slots,
                saved_stack,
                saved_frames,
                setup,
                m,
                sizes,
                fuel,
                fault,
                pc,
            );
            let machine = did.machine;
            let f = did.fuel;
            let answer = did.answer;
            Called {
                machine,
                fuel: f,
                answer,
            }
        }
        Op::SpawnTask { word } => {
            let did = spawn_task(slots, ready, m, Word(word));
            let machine = did.machine;
            let a = did.answer;
            let answer = made_as(a);
            Called {
                machine,
                fuel,
                answer,
            }
        }
        Op::HostCall { func } => {
            let did = host_call(stack, frames, setup, m, sizes, func);
            let machine = did.machine;
            let answer = did.answer;
            Called {
                machine,
                fuel,
                answer,
            }
        }
        Op::HostEntry { coro, word } => {
            let did = host_entry(
                stack,
                frames,
                chain,
                slots,
                saved_stack,
                saved_frames,
                m,
                sizes,
                coro,
                word,
            );
            let machine = did.machine;
            let answer = did.answer;
            Called {
                machine,
                fuel,
                answer,
            }
        }
        Op::FunctionCall { pc, func, cont } => {
            let did = function_call(stack, frames, setup, m, sizes, pc, func, cont);
            let machine = did.machine;
            let answer = did.answer;
            Called {
                machine,
                fuel,
                answer,
            }
        }
        Op::PutWord { reg, word } => {
            let answer = put_word(stack, frames, setup, m, sizes, reg, word);
            Called {
                machine: m,
                fuel,
                answer,
            }
        }
        Op::MakeIterator { src } => {
            let did = make_iterator(slots, m, sizes, src);
            let machine = did.machine;
            let answer = did.answer;
            Called {
                machine,
                fuel,
                answer,
            }
        }
        Op::TakeOutcome => {
            let did = take_outcome(m);
            let machine = did.machine;
            let answer = did.answer;
            Called {
                machine,
                fuel,
                answer,
            }
        }
        Op::HandOver { coro } => {
            let did = hand_over(slots, finalize, m, fuel, Word(coro));
            let machine = did.machine;
            let f = did.fuel;
            let answer = did.answer;
            Called {
                machine,
                fuel: f,
                answer,
            }
        }
        Op::Grant { amount } => {
            let did = grant(m, fuel, amount);
            let f = did.fuel;
            let answer = did.answer;
            Called {
                machine: m,
                fuel: f,
                answer,
            }
        }
        Op::StopRun => {
            let did = stop_run(
                stack,
                frames,
                chain,
                slots,
                saved_stack,
                saved_frames,
                m,
                sizes,
                fuel,
            );
            let machine = did.machine;
            let f = did.fuel;
            let answer = did.answer;
            Called {
                machine,
                fuel: f,
                answer,
            }
        }
        Op::Look => Called {
            machine: m,
            fuel,
            answer: Answer::Accepted,
        },
        _ => instruction(
            stack,
            frames,
            chain,
            slots,
            saved_stack,
            saved_frames,
            finalize,
            setup,
            m,
            sizes,
            fuel,
            op,
        ),
    }
}

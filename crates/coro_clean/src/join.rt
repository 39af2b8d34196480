// coro.rs: spawn_task. 01: "Hand over". A coroutine joins a queue, once.
ghost use Rattle.model.specs.Cleanup.{spawn_task};
ghost use Rattle.model.specs.Added.{hand_over};
ghost use Rattle.memory_world.specs.Lendings.{tasks, cleanups, plain};
ghost use Rattle.memory_world.specs.Contract.{Met, any, every, only, with, of_mut};
ghost use Rattle.coro_clean.specs.Join.{JoinFits};

use heap::fault::Fault;
use heap::value::Word;
use machine_state::called::{Called, Did};
use machine_state::fuel::set_finalizing;
use memory_world::machine::Machine;
use model::call::Answer;
use model::machine::Fuel;

// coro.rs: spawn_task.
pub fn spawn_task(
    slots: &mut [u64],
    ready: &mut [u64],
    m: Machine,
    v: Word,
) -> Did<Result<u64, Fault>>
    requires { JoinFits (tasks slots.old ready.old plain) m }
    ensures { every (λ sizes. Met any sizes (spawn_task v.0) (tasks (of_mut slots) (of_mut ready)) (only m) (only result.machine) result.answer) }
{
    match heap::heap::coro_place(slots, m.count, v) {
        Err(_) => Did {
            machine: m,
            answer: Err(Fault::TypeError),
        },
        Ok(i) => {
            if heap::field::task_at(slots, i) {
                return Did {
                    machine: m,
                    answer: Ok(v.0),
                };
            }
            let s = heap::field::state_at(slots, i);
            if !s.is_resumable() {
                return Did {
                    machine: m,
                    answer: Ok(v.0),
                };
            }
            heap::field::put_task(slots, i);
            memory_tables::queue::push_back(ready, m.ready, v.0);
            let mut n = m;
            n.ready = m.ready + 1;
            Did {
                machine: n,
                answer: Ok(v.0),
            }
        }
    }
}

// 01: "Hand over".
pub fn hand_over(
    slots: &mut [u64],
    finalize: &mut [u64],
    m: Machine,
    fuel: Fuel,
    v: Word,
) -> Called<Answer>
    requires { JoinFits (cleanups slots.old finalize.old plain) m }
    ensures { every (λ sizes. Met any sizes (hand_over v.0) (cleanups (of_mut slots) (of_mut finalize)) (with m fuel) (with result.machine result.fuel) result.answer) }
{
    match heap::heap::coro_place(slots, m.count, v) {
        Err(f) => Called {
            machine: m,
            fuel,
            answer: Answer::Refused(f),
        },
        Ok(i) => {
            let s = heap::field::state_at(slots, i);
            if !s.is_suspended() {
                return Called {
                    machine: m,
                    fuel,
                    answer: Answer::Refused(Fault::InvalidCoroState),
                };
            }
            if heap::field::finalized_at(slots, i) {
                return Called {
                    machine: m,
                    fuel,
                    answer: Answer::Refused(Fault::InvalidCoroState),
                };
            }
            heap::field::put_finalized(slots, i);
            memory_tables::queue::push_back(finalize, m.finalize, v.0);
            let mut n = m;
            n.finalize = m.finalize + 1;
            let did = set_finalizing(n, fuel, m.finalizing);
            let k = did.machine;
            let f = did.fuel;
            Called {
                machine: k,
                fuel: f,
                answer: Answer::Accepted,
            }
        }
    }
}

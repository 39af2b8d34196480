// coro.rs: exec, what Yield, YieldKv and Await share.
ghost use Rattle.std.specs.Prelude.{◌≡◌};
ghost use Rattle.model.specs.Exec.{deliver_all, suspend};
ghost use Rattle.exec_yield.specs.Suspend.{stepped_by, DeliverFits, SuspendFits};
ghost use Rattle.memory_world.specs.Lendings.{six, top_table};
ghost use Rattle.memory_world.specs.Contract.{Met, any, every, if_sound, with, of_mut};

use coro_end::deliver::deliver;
use coro_suspend::suspend::coro_suspend;
use heap::fault::Fault;
use heap::object::CoroState;
use machine_state::called::Called;
use memory_world::machine::{Machine, Sizes};
use model::coro::Event;
use model::exec::Step;
use model::machine::{Driver, Fuel};

// After a delivery: the driver's frame goes on, or the fault is raised there.
fn stepped_by(r: Result<(), Fault>) -> Step
    ensures { result ≡ stepped_by r }
{
    match r {
        Ok(()) => Step::Frame,
        Err(f) => Step::Unwind(f),
    }
}

// The driver gets what the suspended coroutine hands on.
pub(crate) fn deliver_all(
    stack: &mut [u64],
    frames: &mut [u64],
    slots: &mut [u64],
    m: Machine,
    fuel: Fuel,
    a: Result<(Driver, Event), Fault>,
) -> Called<Step>
    requires { DeliverFits stack.old frames.old slots.old m a }
    ensures { every (λ sizes. Met any sizes (λ w. deliver_all w a) (top_table (of_mut stack) (of_mut frames) (of_mut slots)) (with m fuel) (with result.machine result.fuel) result.answer) }
{
    match a {
        Ok((driver, event)) => {
            let did = deliver(stack, frames, slots, m, fuel, driver, event);
            let n = did.machine;
            let f = did.fuel;
            let answer = did.answer;
            let step = stepped_by(answer);
            Called {
                machine: n,
                fuel: f,
                answer: step,
            }
        }
        Err(f) => Called {
            machine: m,
            fuel,
            answer: Step::Fault(f),
        },
    }
}

// The innermost coroutine suspends at pc.
pub(crate) fn suspend(
    stack: &mut [u64],
    frames: &mut [u64],
    chain: &mut [u64],
    slots: &mut [u64],
    saved_stack: &mut [u64],
    saved_frames: &mut [u64],
    m: Machine,
    sizes: Sizes,
    fuel: Fuel,
    pc: u64,
    state: CoroState,
    dst: u64,
    payload: u64,
    keys: Option<(u64, u64)>,
) -> Called<Step>
    requires { SuspendFits sizes stack.old frames.old chain.old slots.old saved_stack.old saved_frames.old m pc state }
    ensures { Met if_sound sizes (suspend pc state dst payload keys) (six (of_mut stack) (of_mut frames) (of_mut chain) (of_mut slots) (of_mut saved_stack) (of_mut saved_frames)) (with m fuel) (with result.machine result.fuel) result.answer }
{
    machine_state::frame::store_pc(frames, m, pc);
    let did = coro_suspend(
        stack,
        frames,
        chain,
        slots,
        saved_stack,
        saved_frames,
        m,
        sizes,
        state,
        dst,
        payload,
        keys,
    );
    let n = did.machine;
    let answer = did.answer;
    deliver_all(stack, frames, slots, n, fuel, answer)
}

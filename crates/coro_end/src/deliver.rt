// coro.rs: deliver, deliver_return. The frames of the coroutine are gone: the top frame is its driver's.
ghost use Rattle.std.specs.Prelude.{◌≡◌, ◌*◌, ◌≤◌, length};
ghost use Rattle.heap.specs.Heap.{TableFits};
ghost use Rattle.model.specs.Coro.{outcome_of, deliver, deliver_return};
ghost use Rattle.model.specs.declared.machine.Driver.TheVariants.{Resume, Iter};
ghost use Rattle.machine_state.specs.Send.{SendFits};
ghost use Rattle.memory_world.specs.Told.{told};
ghost use Rattle.coro_end.specs.Deliver.{IterFits, DriverFits, iter_yielded, iter_returned, stopped};
ghost use Rattle.memory_world.specs.Lendings.{top, top_table};
ghost use Rattle.memory_world.specs.Contract.{Leaves, Met, any, every, only, with, of_mut};

use crate::iter::{set_done, set_key};
use heap::fault::Fault;
use heap::value::Word;
use machine_state::called::Called;
use machine_state::fuel::{FuelDid, set_finalizing};
use machine_state::send::coro_send;
use memory_world::machine::{Machine, Told};
use model::coro::Event;
use model::machine::{Driver, Fuel, Stop};

// What the host hears of an event.
fn outcome_of(e: Event) -> Stop
    ensures { result ≡ outcome_of e }
{
    match e {
        Event::Yielded { payload, key: _ } => Stop::Yielded(payload),
        Event::Awaiting(payload) => Stop::Awaiting(payload),
        Event::CloseIgnored => Stop::CloseIgnored,
    }
}

// What the coroutine did, in words.
fn told_stop(s: Stop) -> Told
    ensures { result ≡ told (Some s) }
{
    match s {
        Stop::Yielded(v) => Told(1, v, 0, 0),
        Stop::Awaiting(v) => Told(2, v, 0, 0),
        Stop::Returned(v) => Told(3, v, 0, 0),
        Stop::Failed(v, f, p) => Told(4, v, f, p),
        Stop::CloseIgnored => Told(5, 0, 0, 0),
    }
}

// The numbers with an outcome for the host.
pub(crate) fn stopped(m: Machine, s: Stop) -> Machine
    ensures { result ≡ stopped s m }
{
    let mut n = m;
    let outcome = told_stop(s);
    n.outcome = outcome;
    n
}

// To Resume's register.
pub(crate) fn deliver_resume(
    stack: &mut [u64],
    frames: &mut [u64],
    m: Machine,
    dst: u64,
    e: Event,
) -> Result<(), Fault>
    requires { SendFits stack.old frames.old m.height m.depth dst }
    ensures { every (λ sizes. Met any sizes (deliver (Resume dst) e) (top (of_mut stack) (of_mut frames)) (only m) (only m) result) }
{
    match e {
        Event::Yielded { payload, key: _ } => {
            coro_send(stack, frames, m, dst, payload);
            Ok(())
        }
        Event::Awaiting(payload) => {
            coro_send(stack, frames, m, dst, payload);
            Ok(())
        }
        Event::CloseIgnored => Err(Fault::CloseIgnored),
    }
}

// A word and its key, to iter_next.
pub(crate) fn iter_yielded(
    stack: &mut [u64],
    frames: &mut [u64],
    slots: &mut [u64],
    m: Machine,
    has: u64,
    val: u64,
    iter: u64,
    payload: u64,
    key: u64,
)
    requires { IterFits stack.old frames.old slots.old m has val }
    ensures { every (λ sizes. Leaves any sizes (iter_yielded has val iter payload key) (top_table (of_mut stack) (of_mut frames) (of_mut slots)) (only m) (only m)) }
{
    set_key(slots, m, Word(iter), key);
    memory_tables::stack::put_reg(stack, frames, m.height, m.depth, val as usize, payload);
    coro_send(stack, frames, m, has, 1);
}

// The end, to iter_next.
pub(crate) fn iter_returned(
    stack: &mut [u64],
    frames: &mut [u64],
    slots: &mut [u64],
    m: Machine,
    has: u64,
    iter: u64,
)
    requires { TableFits slots.old m.count × SendFits stack.old frames.old m.height m.depth has }
    ensures { every (λ sizes. Leaves any sizes (iter_returned has iter) (top_table (of_mut stack) (of_mut frames) (of_mut slots)) (only m) (only m)) }
{
    set_done(slots, m, Word(iter));
    coro_send(stack, frames, m, has, 0);
}

// To iter_next's registers and its iterator.
pub(crate) fn deliver_iter(
    stack: &mut [u64],
    frames: &mut [u64],
    slots: &mut [u64],
    m: Machine,
    has: u64,
    val: u64,
    iter: u64,
    e: Event,
) -> Result<(), Fault>
    requires { IterFits stack.old frames.old slots.old m has val }
    ensures { every (λ sizes. Met any sizes (deliver (Iter has val iter) e) (top_table (of_mut stack) (of_mut frames) (of_mut slots)) (only m) (only m) result) }
{
    match e {
        Event::Yielded { payload, key } => {
            iter_yielded(stack, frames, slots, m, has, val, iter, payload, key);
            Ok(())
        }
        Event::Awaiting(_) => Err(Fault::TypeError),
        Event::CloseIgnored => Err(Fault::CloseIgnored),
    }
}

// coro.rs: deliver.
pub fn deliver(
    stack: &mut [u64],
    frames: &mut [u64],
    slots: &mut [u64],
    m: Machine,
    fuel: Fuel,
    d: Driver,
    e: Event,
) -> Called<Result<(), Fault>>
    requires { DriverFits stack.old frames.old slots.old m d }
    ensures { every (λ sizes. Met any sizes (deliver d e) (top_table (of_mut stack) (of_mut frames) (of_mut slots)) (with m fuel) (with result.machine result.fuel) result.answer) }
{
    match d {
        Driver::Resume(dst) => {
            let answer = deliver_resume(stack, frames, m, dst, e);
            Called {
                machine: m,
                fuel,
                answer,
            }
        }
        Driver::Iter { has, val, iter } => {
            let answer = deliver_iter(stack, frames, slots, m, has, val, iter, e);
            Called {
                machine: m,
                fuel,
                answer,
            }
        }
        Driver::Host => {
            let s = outcome_of(e);
            let n = stopped(m, s);
            Called {
                machine: n,
                fuel,
                answer: Ok(()),
            }
        }
        Driver::Finalize => {
            let did = set_finalizing(m, fuel, false);
            let n = did.machine;
            let f = did.fuel;
            Called {
                machine: n,
                fuel: f,
                answer: Ok(()),
            }
        }
    }
}

// coro.rs: deliver_return.
pub fn deliver_return(
    stack: &mut [u64],
    frames: &mut [u64],
    slots: &mut [u64],
    m: Machine,
    fuel: Fuel,
    d: Driver,
    value: u64,
) -> FuelDid
    requires { DriverFits stack.old frames.old slots.old m d }
    ensures { every (λ sizes. Leaves any sizes (deliver_return d value) (top_table (of_mut stack) (of_mut frames) (of_mut slots)) (with m fuel) (with result.machine result.fuel)) }
{
    match d {
        Driver::Resume(dst) => {
            coro_send(stack, frames, m, dst, value);
            FuelDid { machine: m, fuel }
        }
        Driver::Iter { has, val: _, iter } => {
            iter_returned(stack, frames, slots, m, has, iter);
            FuelDid { machine: m, fuel }
        }
        Driver::Host => {
            let n = stopped(m, Stop::Returned(value));
            FuelDid { machine: n, fuel }
        }
        Driver::Finalize => set_finalizing(m, fuel, false),
    }
}

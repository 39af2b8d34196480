// coro.rs: exec, what its arms that enter coroutines have in common, and a host entry too.
ghost use Rattle.model.specs.World.{and_then};
ghost use Rattle.model.specs.Frames.{store_pc};
ghost use Rattle.model.specs.Coro.{coro_enter};
ghost use Rattle.model.specs.Exec.{arrive};
ghost use Rattle.coro_enter.specs.Entry.{EntryFits, ArriveFits};
ghost use Rattle.memory_world.specs.Lendings.{six, top};
ghost use Rattle.memory_world.specs.Contract.{Met, any, every, if_sound, only, of_mut};

use crate::enter::coro_enter;
use heap::fault::Fault;
use heap::value::Word;
use machine_state::called::Did;
use machine_state::send::coro_send;
use memory_world::machine::{Machine, Sizes};
use model::coro::Entered;
use model::exec::Step;
use model::machine::Driver;

// The pc is stored, and the coroutine entered.
pub fn store_enter(
    stack: &mut [u64],
    frames: &mut [u64],
    chain: &mut [u64],
    slots: &mut [u64],
    saved_stack: &mut [u64],
    saved_frames: &mut [u64],
    m: Machine,
    sizes: Sizes,
    pc: u64,
    v: u64,
    d: Driver,
) -> Did<Result<Entered, Fault>>
    requires { EntryFits sizes stack.old frames.old chain.old slots.old saved_stack.old saved_frames.old m pc }
    ensures { Met if_sound sizes (λ w. coro_enter v d (store_pc pc w)) (six (of_mut stack) (of_mut frames) (of_mut chain) (of_mut slots) (of_mut saved_stack) (of_mut saved_frames)) (only m) (only result.machine) result.answer }
{
    machine_state::frame::store_pc(frames, m, pc);
    coro_enter(
        stack,
        frames,
        chain,
        slots,
        saved_stack,
        saved_frames,
        m,
        sizes,
        Word(v),
        d,
    )
}

// The sent word goes to a coroutine that waits for it.
pub fn arrive(
    stack: &mut [u64],
    frames: &mut [u64],
    m: Machine,
    a: Result<Entered, Fault>,
    sent: u64,
) -> Step
    requires { ArriveFits stack.old frames.old m.height m.depth a }
    ensures { every (λ sizes. Met any sizes (λ w. arrive sent w a) (top (of_mut stack) (of_mut frames)) (only m) (only m) result) }
{
    match a {
        Ok(entered) => match entered {
            Entered::Fresh => Step::Frame,
            Entered::Suspended(d) => {
                coro_send(stack, frames, m, d, sent);
                Step::Frame
            }
        },
        Err(f) => Step::Fault(f),
    }
}

// An entry, and an arrival.
pub fn enter_send(
    stack: &mut [u64],
    frames: &mut [u64],
    chain: &mut [u64],
    slots: &mut [u64],
    saved_stack: &mut [u64],
    saved_frames: &mut [u64],
    m: Machine,
    sizes: Sizes,
    pc: u64,
    v: u64,
    d: Driver,
    sent: u64,
) -> Did<Step>
    requires { EntryFits sizes stack.old frames.old chain.old slots.old saved_stack.old saved_frames.old m pc }
    ensures { Met if_sound sizes (λ w. and_then (coro_enter v d (store_pc pc w)) (arrive sent)) (six (of_mut stack) (of_mut frames) (of_mut chain) (of_mut slots) (of_mut saved_stack) (of_mut saved_frames)) (only m) (only result.machine) result.answer }
{
    let did = store_enter(
        stack,
        frames,
        chain,
        slots,
        saved_stack,
        saved_frames,
        m,
        sizes,
        pc,
        v,
        d,
    );
    let n = did.machine;
    let a = did.answer;
    let step = arrive(stack, frames, n, a, sent);
    Did {
        machine: n,
        answer: step,
    }
}

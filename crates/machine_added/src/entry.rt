// 01: "Host entry: `coro_enter` with the host driver, then the word delivered if suspended."
ghost use Rattle.std.specs.Prelude.{◌≡◌, ℕ};
ghost use Rattle.model.specs.World.{World};
ghost use Rattle.model.specs.Added.{host_arrive, host_entry};
ghost use Rattle.memory_world.specs.Lendings.{six, plain};
ghost use Rattle.memory_world.specs.Contract.{Ok, Met, if_sound, only, of_mut};

use coro_enter::arrival::arrive;
use coro_enter::enter::coro_enter;
use heap::fault::Fault;
use heap::value::Word;
use machine_state::called::Did;
use memory_world::machine::{Machine, Sizes};
use model::call::Answer;
use model::coro::Entered;
use model::machine::Driver;

// A coroutine was entered, or refused.
fn entered_as(a: Result<Entered, Fault>) -> Answer
    ensures { (v : ℕ) (w : World) → result ≡ (host_arrive v w a).answer }
{
    match a {
        Ok(_) => Answer::Accepted,
        Err(f) => Answer::Refused(f),
    }
}

pub fn host_entry(
    stack: &mut [u64],
    frames: &mut [u64],
    chain: &mut [u64],
    slots: &mut [u64],
    saved_stack: &mut [u64],
    saved_frames: &mut [u64],
    m: Machine,
    sizes: Sizes,
    c: u64,
    v: u64,
) -> Did<Answer>
    requires { Ok sizes (six stack.old frames.old chain.old slots.old saved_stack.old saved_frames.old plain) (only m) }
    ensures { Met if_sound sizes (host_entry c v) (six (of_mut stack) (of_mut frames) (of_mut chain) (of_mut slots) (of_mut saved_stack) (of_mut saved_frames)) (only m) (only result.machine) result.answer }
{
    let did = coro_enter(
        stack,
        frames,
        chain,
        slots,
        saved_stack,
        saved_frames,
        m,
        sizes,
        Word(c),
        Driver::Host,
    );
    let n = did.machine;
    let a = did.answer;
    arrive(stack, frames, n, a, v);
    Did {
        machine: n,
        answer: entered_as(a),
    }
}

// 01: host call, function call, put word.
ghost use Rattle.std.specs.Prelude.{◌≡◌};
ghost use Rattle.model.specs.World.{World};
ghost use Rattle.model.specs.Added.{pushed_or, host_call, function_call, put_word};
ghost use Rattle.memory_tables.specs.Does.{RegFits};
ghost use Rattle.memory_world.specs.Lendings.{top, top_setup};
ghost use Rattle.memory_world.specs.Contract.{Met, any, every, if_sound, only, of_mut, of_ref};
ghost use Rattle.machine_state.specs.Frame.{PushFits, CallFits};

use heap::fault::Fault;
use heap::value::Word;
use machine_state::called::Did;
use machine_state::frame::{push_at, push_frame};
use memory_world::machine::{Machine, Sizes};
use model::call::Answer;
use model::machine::Cont;

// A frame was pushed, or refused.
fn pushed_as(a: Result<u64, Fault>) -> Answer
    ensures { (w u : World) → result ≡ (pushed_or w u a).answer }
{
    match a {
        Ok(_) => Answer::Accepted,
        Err(f) => Answer::Refused(f),
    }
}

// "Host call: an Entry frame."
pub fn host_call(
    stack: &[u64],
    frames: &mut [u64],
    setup: &[u64],
    m: Machine,
    sizes: Sizes,
    f: u64,
) -> Did<Answer>
    requires { PushFits sizes stack.now frames.old setup.now m f }
    ensures { Met if_sound sizes (host_call f) (top_setup (of_ref stack) (of_mut frames) (of_ref setup)) (only m) (only result.machine) result.answer }
{
    let did = push_frame(stack, frames, setup, m, sizes, f, Word::NIL, Cont::Entry);
    let n = did.machine;
    let a = did.answer;
    Did {
        machine: n,
        answer: pushed_as(a),
    }
}

// "Function call: `push_frame` .., pc stored only if accepted."
pub fn function_call(
    stack: &[u64],
    frames: &mut [u64],
    setup: &[u64],
    m: Machine,
    sizes: Sizes,
    pc: u64,
    f: u64,
    cont: Cont,
) -> Did<Answer>
    requires { CallFits sizes stack.now frames.old setup.now m pc f }
    ensures { Met if_sound sizes (function_call pc f cont) (top_setup (of_ref stack) (of_mut frames) (of_ref setup)) (only m) (only result.machine) result.answer }
{
    let did = push_at(stack, frames, setup, m, sizes, pc, f, Word::NIL, cont);
    let n = did.machine;
    let a = did.answer;
    Did {
        machine: n,
        answer: pushed_as(a),
    }
}

// "Put word: one register of the top frame."
pub fn put_word(stack: &mut [u64], frames: &[u64], m: Machine, r: u64, v: u64) -> Answer
    requires { RegFits stack.old frames.now m.height m.depth r }
    ensures { every (λ sizes. Met any sizes (put_word r v) (top (of_mut stack) (of_ref frames)) (only m) (only m) result) }
{
    machine_state::frame::put(stack, frames, m, r, v);
    Answer::Accepted
}

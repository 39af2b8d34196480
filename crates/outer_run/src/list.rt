// Calls in words, one after the other, on sound words.
ghost use Rattle.std.specs.Prelude.{◌≡◌, ◌+◌, ◌*◌, ◌≤◌, length};
ghost use Rattle.lists.specs.Chunks.{chunk_at, put_chunk};
ghost use Rattle.memory_world.specs.Contract.{at_entry, at_exit, of_mut, of_ref};
ghost use Rattle.memory_calls.specs.Call.{op_of};
ghost use Rattle.memory_calls.specs.Answer.{answer_words};
ghost use Rattle.outer_call.specs.State.{nine, state};
ghost use Rattle.outer_run.specs.Run.{count_of, read_in, written, refusals, ListFits, Listed};
ghost use Rattle.memory_world.specs.Lendings.{plain};

use crate::one::do_read;
use heap::fault::Fault;
use memory_calls::answer::ANSWER_WIDTH;
use memory_calls::call::{CALL_WIDTH, Gate};
use memory_world::machine::{Machine, Sizes};
use model::call::{Answer, Op};
use model::machine::Fuel;

// The numbers and the fuel that a run leaves.
#[derive(Clone, Copy)]
pub struct Ran {
    pub machine: Machine,
    pub fuel: Fuel,
}

// How many calls are in n words: a last part of fewer than six is one more.
pub fn count(n: usize) -> usize
    ensures { result ≡ count_of n }
{
    let q = n / CALL_WIDTH;
    if n % CALL_WIDTH == 0 {
        return q;
    }
    q + 1
}

// The call at place i.
fn read_at(calls: &[u64], i: usize) -> Result<Op, Gate>
    requires { i * 6 ≤ length calls.now }
    ensures { result ≡ read_in calls.now i }
{
    let a = i * CALL_WIDTH;
    let left = calls.len() - a;
    if left < CALL_WIDTH {
        return memory_calls::call::op_of(&calls[a..calls.len()]);
    }
    let e = a + CALL_WIDTH;
    memory_calls::call::op_of(&calls[a..e])
}

// Its answer.
pub fn put_at(answers: &mut [u64], i: usize, a: Answer)
    requires { i * 8 + 8 ≤ length answers.old }
    ensures { answers.new ≡ put_chunk 8 answers.old i (answer_words a) }
{
    let at = i * ANSWER_WIDTH;
    let e = at + ANSWER_WIDTH;
    memory_calls::answer::put_answer(&mut answers[at..e], a);
}

// Each of n calls answered 11.
pub fn refuse_list(answers: &mut [u64], n: usize)
    requires { n * 8 ≤ length answers.old }
    ensures { answers.new ≡ written answers.old 0 (refusals n) }
{
    for j in 0..n {
        put_at(answers, j, Answer::Refused(Fault::Unsound));
    }
}

// The n calls, on sound words.
pub fn run_list(
    stack: &mut [u64],
    frames: &mut [u64],
    chain: &mut [u64],
    slots: &mut [u64],
    saved_stack: &mut [u64],
    saved_frames: &mut [u64],
    ready: &mut [u64],
    finalize: &mut [u64],
    setup: &[u64],
    m: Machine,
    sizes: Sizes,
    fuel: Fuel,
    calls: &[u64],
    answers: &mut [u64],
    n: usize,
) -> Ran
    requires { ListFits sizes (state (nine stack.old frames.old chain.old slots.old saved_stack.old saved_frames.old ready.old finalize.old setup.now plain) m fuel) calls.now answers.old n }
    ensures { Listed (state (nine (of_mut stack) (of_mut frames) (of_mut chain) (of_mut slots) (of_mut saved_stack) (of_mut saved_frames) (of_mut ready) (of_mut finalize) (of_ref setup) at_entry) m fuel)
        calls.now answers.old n (state (nine (of_mut stack) (of_mut frames) (of_mut chain) (of_mut slots) (of_mut saved_stack) (of_mut saved_frames) (of_mut ready) (of_mut finalize) (of_ref setup) at_exit)
        result.machine result.fuel) answers.new }
{
    let mut k = m;
    let mut f = fuel;
    for i in 0..n {
        let read = read_at(calls, i);
        let did = do_read(
            stack,
            frames,
            chain,
            slots,
            saved_stack,
            saved_frames,
            ready,
            finalize,
            setup,
            k,
            sizes,
            f,
            read,
        );
        k = did.machine;
        f = did.fuel;
        let a = did.answer;
        put_at(answers, i, a);
    }
    Ran {
        machine: k,
        fuel: f,
    }
}

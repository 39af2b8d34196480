// coro.rs: exec, CoroStatus, CoroCurrent, CoroKey and CoroResult. Their operands have been tested. No number changes.
ghost use Rattle.std.specs.Prelude.{◌*◌, ◌≤◌, length};
ghost use Rattle.model.specs.Exec.{coro_status, coro_current, coro_key, coro_result};
ghost use Rattle.exec_ask.specs.Ask.{AskFits, CurrentFits, Current};
ghost use Rattle.memory_world.specs.Lendings.{top_table, top_chain};
ghost use Rattle.memory_world.specs.Contract.{Met, any, every, only, of_mut, of_ref};

use heap::fault::Fault;
use heap::value::Word;
use machine_state::coro::coro_state;
use machine_state::frame::put;
use memory_world::machine::Machine;
use model::exec::Step;

// coro.rs: exec, CoroStatus.
pub fn coro_status(
    stack: &mut [u64],
    frames: &[u64],
    slots: &[u64],
    m: Machine,
    dst: u64,
    c: u64,
) -> Step
    requires { AskFits stack.old frames.now slots.now m dst c }
    ensures { every (λ sizes. Met any sizes (coro_status dst c) (top_table (of_mut stack) (of_ref frames) (of_ref slots)) (only m) (only m) result) }
{
    let v = memory_tables::stack::reg(stack, frames, m.height, m.depth, c as usize);
    match coro_state(slots, m, Word(v)) {
        Err(refused) => Step::Fault(refused),
        Ok(s) => {
            let code = s.code();
            put(stack, frames, m, dst, code);
            Step::Next
        }
    }
}

// The innermost running coroutine, or nil.
fn current(chain: &[u64], m: Machine) -> u64
    requires { m.active * 6 ≤ length chain.now }
    ensures { Current chain.now m.active result }
{
    if m.active == 0 {
        return Word::NIL;
    }
    let a = memory_tables::active::active_at(chain, m.active - 1);
    a.coro
}

// coro.rs: exec, CoroCurrent.
pub fn coro_current(stack: &mut [u64], frames: &[u64], chain: &[u64], m: Machine, dst: u64) -> Step
    requires { CurrentFits stack.old frames.now chain.now m dst }
    ensures { every (λ sizes. Met any sizes (coro_current dst) (top_chain (of_mut stack) (of_ref frames) (of_ref chain)) (only m) (only m) result) }
{
    let v = current(chain, m);
    put(stack, frames, m, dst, v);
    Step::Next
}

// coro.rs: exec, CoroKey.
pub fn coro_key(
    stack: &mut [u64],
    frames: &[u64],
    slots: &[u64],
    m: Machine,
    dst: u64,
    c: u64,
) -> Step
    requires { AskFits stack.old frames.now slots.now m dst c }
    ensures { every (λ sizes. Met any sizes (coro_key dst c) (top_table (of_mut stack) (of_ref frames) (of_ref slots)) (only m) (only m) result) }
{
    let v = memory_tables::stack::reg(stack, frames, m.height, m.depth, c as usize);
    match heap::heap::coro_place(slots, m.count, Word(v)) {
        Err(f) => Step::Fault(f),
        Ok(i) => {
            let key = heap::field::key_at(slots, i);
            put(stack, frames, m, dst, key);
            Step::Next
        }
    }
}

// coro.rs: exec, CoroResult.
pub fn coro_result(
    stack: &mut [u64],
    frames: &[u64],
    slots: &[u64],
    m: Machine,
    dst: u64,
    c: u64,
) -> Step
    requires { AskFits stack.old frames.now slots.now m dst c }
    ensures { every (λ sizes. Met any sizes (coro_result dst c) (top_table (of_mut stack) (of_ref frames) (of_ref slots)) (only m) (only m) result) }
{
    let v = memory_tables::stack::reg(stack, frames, m.height, m.depth, c as usize);
    match heap::heap::coro_place(slots, m.count, Word(v)) {
        Err(f) => Step::Fault(f),
        Ok(i) => {
            let state = heap::field::state_at(slots, i);
            if !state.is_returned() {
                return Step::Fault(Fault::InvalidCoroState);
            }
            let result = heap::field::result_at(slots, i);
            put(stack, frames, m, dst, result);
            Step::Next
        }
    }
}

// machine.rs: apply_cont.
ghost use Rattle.std.specs.Prelude.{◌≡◌};
ghost use Rattle.model.specs.Machine.{result_of, or_nil, apply_cont};
ghost use Rattle.model.specs.declared.machine.Cont.TheVariants.{Dyn};
ghost use Rattle.machine_finish.specs.Finish.{ContFits};
ghost use Rattle.memory_world.specs.Lendings.{top_table, plain};
ghost use Rattle.memory_world.specs.Contract.{Met, any, only, of_mut, of_ref};

use crate::convert::to_dyn;
use heap::fault::Fault;
use heap::heap::ResultKind;
use heap::value::Word;
use machine_state::called::Did;
use machine_state::frame::put;
use memory_world::machine::{Machine, Sizes};
use model::machine::Cont;

// The word, unless the kind is none.
pub(crate) fn result_of(kind: ResultKind, v: u64) -> Option<u64>
    ensures { result ≡ result_of kind v }
{
    match kind {
        ResultKind::None => None,
        ResultKind::Dyn => Some(v),
        ResultKind::I64 => Some(v),
        ResultKind::U64 => Some(v),
    }
}

fn or_nil(o: Option<u64>) -> u64
    ensures { result ≡ or_nil o }
{
    match o {
        None => Word::NIL,
        Some(v) => v,
    }
}

// A result as a dynamic word, into a register of the top frame.
fn write_dyn(
    stack: &mut [u64],
    frames: &[u64],
    slots: &mut [u64],
    m: Machine,
    sizes: Sizes,
    dst: u64,
    kind: ResultKind,
    v: u64,
) -> Did<Result<(), Fault>>
    requires { ContFits sizes (top_table stack.old frames.now slots.old plain) m (Dyn dst) }
    ensures { Met any sizes (apply_cont (Dyn dst) kind v) (top_table (of_mut stack) (of_ref frames) (of_mut slots)) (only m) (only result.machine) result.answer }
{
    let did = to_dyn(slots, m, sizes, kind, v);
    let n = did.machine;
    let made = did.answer;
    match made {
        Ok(x) => {
            put(stack, frames, n, dst, x);
            Did {
                machine: n,
                answer: Ok(()),
            }
        }
        Err(f) => Did {
            machine: n,
            answer: Err(f),
        },
    }
}

// machine.rs: apply_cont, a result into the top frame.
pub(crate) fn apply_cont(
    stack: &mut [u64],
    frames: &[u64],
    slots: &mut [u64],
    m: Machine,
    sizes: Sizes,
    cont: Cont,
    kind: ResultKind,
    v: u64,
) -> Did<Result<(), Fault>>
    requires { ContFits sizes (top_table stack.old frames.now slots.old plain) m cont }
    ensures { Met any sizes (apply_cont cont kind v) (top_table (of_mut stack) (of_ref frames) (of_mut slots)) (only m) (only result.machine) result.answer }
{
    match cont {
        Cont::Entry => {}
        Cont::Write(dst) => {
            let result = result_of(kind, v);
            match result {
                None => {}
                Some(x) => put(stack, frames, m, dst, x),
            }
        }
        Cont::Dyn(dst) => return write_dyn(stack, frames, slots, m, sizes, dst, kind, v),
        Cont::Value(dst) => {
            let x = or_nil(result_of(kind, v));
            put(stack, frames, m, dst, x);
        }
        Cont::Discard => {}
        Cont::Coro => {}
    }
    Did {
        machine: m,
        answer: Ok(()),
    }
}

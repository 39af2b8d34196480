// machine.rs: unwind.
ghost use Rattle.std.specs.Prelude.{◌≡◌, ◌*◌, ◌≤◌, length};
ghost use Rattle.heap.specs.Heap.{Room};
ghost use Rattle.model.specs.Machine.{unwind_fault, store_some, raisable, unwind};
ghost use Rattle.machine_state.specs.Numbers.{heap_of};
ghost use Rattle.memory_world.specs.Lendings.{frame, table, six_setup, plain};
ghost use Rattle.memory_world.specs.Contract.{Leaves, Met, Reads, any, every, if_sound, only, with, of_mut, of_ref};
ghost use Rattle.machine_unwind.specs.Turns.{origin_of, if_at, thrown};
ghost use Rattle.machine_unwind.specs.Fits.{RaiseFits, UnwindFits};

use crate::search::search;
use crate::turn::Origin;
use heap::fault::Fault;
use heap::object::Object;
use heap::value::Word;
use machine_state::called::{Called, Did};
use machine_state::object::alloc_plain;
use memory_world::machine::{Machine, Sizes};
use model::call::Answer;
use model::machine::Fuel;

// Function and pc of the top frame; 0 and 0 without one.
pub(crate) fn origin(frames: &[u64], m: Machine) -> Origin
    requires { m.depth * 6 ≤ length frames.now }
    ensures { every (λ sizes. Reads sizes origin_of (frame (of_ref frames)) (only m) result) }
{
    if m.depth == 0 {
        return Origin { func: 0, pc: 0 };
    }
    let i = m.depth - 1;
    Origin {
        func: memory_tables::frame::func_at(frames, i),
        pc: memory_tables::frame::pc_at(frames, i),
    }
}

// The word that a fault is raised as: its own, or that of an error object. 9 and 10 pass.
pub(crate) fn thrown(
    slots: &mut [u64],
    m: Machine,
    sizes: Sizes,
    fault: Fault,
    at: Origin,
) -> Did<Result<u64, Fault>>
    requires { Room slots.old (heap_of m sizes) }
    ensures { Met (if_at at) sizes (thrown fault) (table (of_mut slots)) (only m) (only result.machine) result.answer }
{
    let kind = fault.number();
    if kind == 17 {
        return Did {
            machine: m,
            answer: Ok(fault.word()),
        };
    }
    if kind <= 8 {
        let costs = sizes.costs;
        let o = Object::Error {
            kind,
            func: at.func,
            pc: at.pc,
            payload: Word::NIL,
        };
        return alloc_plain(slots, m, sizes, costs.error, o);
    }
    Did {
        machine: m,
        answer: Err(fault),
    }
}

// A fault from 1 to 10, or 17, in the top frame.
pub(crate) fn raise(
    stack: &mut [u64],
    frames: &mut [u64],
    chain: &mut [u64],
    slots: &mut [u64],
    saved_stack: &mut [u64],
    saved_frames: &mut [u64],
    setup: &[u64],
    m: Machine,
    sizes: Sizes,
    fuel: Fuel,
    fault: Fault,
) -> Called<Answer>
    requires { RaiseFits sizes (six_setup stack.old frames.old chain.old slots.old saved_stack.old saved_frames.old setup.now plain) m fuel fault }
    ensures { Met if_sound sizes (unwind_fault fault) (six_setup (of_mut stack) (of_mut frames) (of_mut chain) (of_mut slots) (of_mut saved_stack) (of_mut saved_frames) (of_ref setup)) (with m fuel) (with result.machine result.fuel) result.answer }
{
    let at = origin(frames, m);
    let did = thrown(slots, m, sizes, fault, at);
    let n = did.machine;
    let made = did.answer;
    match made {
        Err(f) => Called {
            machine: n,
            fuel,
            answer: Answer::Refused(f),
        },
        Ok(v) => search(
            stack,
            frames,
            chain,
            slots,
            saved_stack,
            saved_frames,
            setup,
            n,
            sizes,
            fuel,
            v,
            at.func,
            at.pc,
        ),
    }
}

// 01: "a fault 1 to 10, or 17 with its word (else 11)"
fn is_raisable(fault: Fault) -> bool
    ensures { result ≡ raisable fault }
{
    let n = fault.number();
    if n == 17 {
        return true;
    }
    if n == 0 {
        return false;
    }
    n <= 10
}

// A pc that is given goes to the top frame, if there is one.
fn store_some(frames: &mut [u64], m: Machine, pc: Option<u32>)
    requires { m.depth * 6 ≤ length frames.old }
    ensures { every (λ sizes. Leaves any sizes (store_some pc) (frame (of_mut frames)) (only m) (only m)) }
{
    if m.depth == 0 {
        return;
    }
    match pc {
        None => {}
        Some(p) => machine_state::frame::store_pc(frames, m, p as u64),
    }
}

// machine.rs: unwind.
pub fn unwind(
    stack: &mut [u64],
    frames: &mut [u64],
    chain: &mut [u64],
    slots: &mut [u64],
    saved_stack: &mut [u64],
    saved_frames: &mut [u64],
    setup: &[u64],
    m: Machine,
    sizes: Sizes,
    fuel: Fuel,
    fault: Fault,
    pc: Option<u32>,
) -> Called<Answer>
    requires { UnwindFits sizes (six_setup stack.old frames.old chain.old slots.old saved_stack.old saved_frames.old setup.now plain) m fuel pc }
    ensures { Met if_sound sizes (unwind fault pc) (six_setup (of_mut stack) (of_mut frames) (of_mut chain) (of_mut slots) (of_mut saved_stack) (of_mut saved_frames) (of_ref setup)) (with m fuel) (with result.machine result.fuel) result.answer }
{
    if !is_raisable(fault) {
        return Called {
            machine: m,
            fuel,
            answer: Answer::Refused(Fault::Unsound),
        };
    }
    store_some(frames, m, pc);
    raise(
        stack,
        frames,
        chain,
        slots,
        saved_stack,
        saved_frames,
        setup,
        m,
        sizes,
        fuel,
        fault,
    )
}

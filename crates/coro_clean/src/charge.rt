// exec.rs: charge, one unit of fuel. coro.rs: charge_slow.
ghost use Rattle.std.specs.Prelude.{◌≡◌, false, ◌≤◌};
ghost use Rattle.model.specs.World.{after};
ghost use Rattle.model.specs.Cleanup.{charge_done, charge_or, charge_slow, charge};
ghost use Rattle.memory_world.specs.Lendings.{none, cleaning, plain};
ghost use Rattle.memory_world.specs.Contract.{Met, any, every, if_sound, with, of_mut};
ghost use Rattle.coro_clean.specs.Charge.{spent, charge_ready, ChargeFits, ReadyFits};

use crate::finalizer::start_finalizer;
use machine_state::called::Called;
use machine_state::fuel::{arm_close, unbank};
use memory_world::machine::{Machine, Sizes};
use model::coro::Started;
use model::machine::{Charge, Fuel};

// What a charge without a pc leaves of the fuel, and answers.
#[derive(Clone, Copy)]
pub struct PlainChargeDid {
    pub fuel: Fuel,
    pub answer: Charge,
}

// One unit less.
pub(crate) fn spend(f: Fuel) -> Fuel
    requires { 1 ≤ f.fuel }
    ensures { result ≡ spent f }
{
    let mut g = f;
    g.fuel = f.fuel - 1;
    g
}

// A unit is paid, after so many words were taken off the cleanup queue.
pub(crate) fn charge_done(f: Fuel, taken: u64) -> PlainChargeDid
    requires { 1 ≤ f.fuel }
    ensures { (m : Machine) → every (λ sizes. Met any sizes (charge_done taken) none (with m f) (with m result.fuel) result.answer) }
{
    let g = spend(f);
    let fuel = arm_close(g);
    PlainChargeDid {
        fuel,
        answer: Charge::Done(taken),
    }
}

// coro.rs: charge_slow, without a pc.
fn slow_plain(fuel: Fuel) -> PlainChargeDid
    ensures { (m : Machine) → every (λ sizes. Met any sizes (charge_slow None) none (with m fuel) (with m result.fuel) result.answer) }
{
    let f = unbank(fuel);
    if f.fuel == 0 {
        return PlainChargeDid {
            fuel: f,
            answer: Charge::Spent,
        };
    }
    charge_done(f, 0)
}

// exec.rs: charge, without a pc: no cleanup starts.
pub fn charge_plain(fuel: Fuel) -> PlainChargeDid
    ensures { (m : Machine) → every (λ sizes. Met any sizes (charge None) none (with m fuel) (with m result.fuel) result.answer) }
{
    if fuel.fuel != 0 {
        let f = spend(fuel);
        return PlainChargeDid {
            fuel: f,
            answer: Charge::Done(0),
        };
    }
    slow_plain(fuel)
}

// A cleanup has started, or a unit is paid.
pub(crate) fn charge_or(m: Machine, f: Fuel, s: Started) -> Called<Charge>
    requires { s.entered ≡ false → 1 ≤ f.fuel }
    ensures { every (λ sizes. Met any sizes (λ w. charge_or (after w s)) none (with m f) (with result.machine result.fuel) result.answer) }
{
    if s.entered {
        return Called {
            machine: m,
            fuel: f,
            answer: Charge::Close(s.taken),
        };
    }
    let did = charge_done(f, s.taken);
    let fuel = did.fuel;
    let answer = did.answer;
    Called {
        machine: m,
        fuel,
        answer,
    }
}

// Cleanups are ready: the pc is stored first, even if none then starts.
pub(crate) fn charge_ready(
    stack: &mut [u64],
    frames: &mut [u64],
    chain: &mut [u64],
    slots: &mut [u64],
    saved_stack: &mut [u64],
    saved_frames: &mut [u64],
    finalize: &mut [u64],
    m: Machine,
    sizes: Sizes,
    fuel: Fuel,
    pc: u64,
) -> Called<Charge>
    requires { ReadyFits sizes (cleaning stack.old frames.old chain.old slots.old saved_stack.old saved_frames.old finalize.old plain) m fuel pc }
    ensures { Met if_sound sizes (charge_ready pc) (cleaning (of_mut stack) (of_mut frames) (of_mut chain) (of_mut slots) (of_mut saved_stack) (of_mut saved_frames) (of_mut finalize)) (with m fuel) (with result.machine result.fuel) result.answer }
{
    machine_state::frame::store_pc(frames, m, pc);
    let did = start_finalizer(
        stack,
        frames,
        chain,
        slots,
        saved_stack,
        saved_frames,
        finalize,
        m,
        sizes,
        fuel,
    );
    let n = did.machine;
    let f = did.fuel;
    let s = did.answer;
    charge_or(n, f, s)
}

// coro.rs: charge_slow.
pub(crate) fn charge_slow(
    stack: &mut [u64],
    frames: &mut [u64],
    chain: &mut [u64],
    slots: &mut [u64],
    saved_stack: &mut [u64],
    saved_frames: &mut [u64],
    finalize: &mut [u64],
    m: Machine,
    sizes: Sizes,
    fuel: Fuel,
    pc: u64,
) -> Called<Charge>
    requires { ChargeFits sizes (cleaning stack.old frames.old chain.old slots.old saved_stack.old saved_frames.old finalize.old plain) m fuel pc }
    ensures { Met if_sound sizes (charge_slow (Some pc)) (cleaning (of_mut stack) (of_mut frames) (of_mut chain) (of_mut slots) (of_mut saved_stack) (of_mut saved_frames) (of_mut finalize)) (with m fuel) (with result.machine result.fuel) result.answer }
{
    let f = unbank(fuel);
    if f.fuel == 0 {
        return Called {
            machine: m,
            fuel: f,
            answer: Charge::Spent,
        };
    }
    if f.ready {
        return charge_ready(
            stack,
            frames,
            chain,
            slots,
            saved_stack,
            saved_frames,
            finalize,
            m,
            sizes,
            f,
            pc,
        );
    }
    let did = charge_done(f, 0);
    let g = did.fuel;
    let answer = did.answer;
    Called {
        machine: m,
        fuel: g,
        answer,
    }
}

// exec.rs: charge. With fuel in hand nothing is lent.
pub fn charge(
    stack: &mut [u64],
    frames: &mut [u64],
    chain: &mut [u64],
    slots: &mut [u64],
    saved_stack: &mut [u64],
    saved_frames: &mut [u64],
    finalize: &mut [u64],
    m: Machine,
    sizes: Sizes,
    fuel: Fuel,
    pc: u64,
) -> Called<Charge>
    requires { ChargeFits sizes (cleaning stack.old frames.old chain.old slots.old saved_stack.old saved_frames.old finalize.old plain) m fuel pc }
    ensures { Met if_sound sizes (charge (Some pc)) (cleaning (of_mut stack) (of_mut frames) (of_mut chain) (of_mut slots) (of_mut saved_stack) (of_mut saved_frames) (of_mut finalize)) (with m fuel) (with result.machine result.fuel) result.answer }
{
    if fuel.fuel != 0 {
        let f = spend(fuel);
        return Called {
            machine: m,
            fuel: f,
            answer: Charge::Done(0),
        };
    }
    charge_slow(
        stack,
        frames,
        chain,
        slots,
        saved_stack,
        saved_frames,
        finalize,
        m,
        sizes,
        fuel,
        pc,
    )
}

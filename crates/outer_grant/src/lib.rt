// 01: "The fuel record stays with the host, and a grant rewrites it there".
#![tactic(auto)]

pub mod call;

ghost use Rattle.model.specs.Added.{grant};
ghost use Rattle.memory_world.specs.Lendings.{none};
ghost use Rattle.memory_world.specs.Contract.{Met, any, every, with};

use machine_added::fuel::GrantDid;
use memory_world::machine::Machine;
use model::call::Answer;
use model::machine::Fuel;

// The record is lent and rewritten where it stands. The grant by value says what it holds then.
pub fn grant(fuel: &mut Fuel, m: Machine, n: u64) -> Answer
    ensures { every (λ sizes. Met any sizes (grant n) none (with m fuel.old) (with m fuel.new) result) }
{
    let g = machine_added::fuel::grant(m, *fuel, n);
    *fuel = g.fuel;
    g.answer
}

// For a caller that has the record as a value: it stands in a local, and the local is lent.
pub fn granted(fuel: Fuel, m: Machine, n: u64) -> GrantDid
    ensures { every (λ sizes. Met any sizes (grant n) none (with m fuel) (with m result.fuel) result.answer) }
{
    let mut f = fuel;
    let answer = grant(&mut f, m, n);
    GrantDid { fuel: f, answer }
}

// 01: "Grant: adds to the bank if there is one, else to fuel."
ghost use Rattle.std.specs.Prelude.{◌≡◌};
ghost use Rattle.model.specs.Added.{reserve, refuel, grant};
ghost use Rattle.memory_world.specs.Lendings.{none};
ghost use Rattle.memory_world.specs.Contract.{Met, any, every, with};

use heap::fault::Fault;
use heap::value::MOST64;
use memory_world::machine::Machine;
use model::call::Answer;
use model::machine::Fuel;

// What a grant leaves of the fuel, and answers.
#[derive(Clone, Copy)]
pub struct GrantDid {
    pub fuel: Fuel,
    pub answer: Answer,
}

// What a grant adds to.
fn reserve(f: Fuel) -> u64
    ensures { result ≡ reserve f.bank f }
{
    let bank = f.bank;
    match bank {
        None => f.fuel,
        Some(n) => n,
    }
}

// .. set to n.
fn refuel(f: Fuel, n: u64) -> Fuel
    ensures { result ≡ refuel f.bank n f }
{
    let bank = f.bank;
    match bank {
        None => Fuel {
            fuel: n,
            bank: None,
            ready: f.ready,
        },
        Some(_) => Fuel {
            fuel: f.fuel,
            bank: Some(n),
            ready: f.ready,
        },
    }
}

// The machine is not changed.
pub fn grant(m: Machine, f: Fuel, n: u64) -> GrantDid
    ensures { every (λ sizes. Met any sizes (grant n) none (with m f) (with m result.fuel) result.answer) }
{
    let had = reserve(f);
    if MOST64 - had < n {
        return GrantDid {
            fuel: f,
            answer: Answer::Refused(Fault::GrantTooLarge),
        };
    }
    let sum = had + n;
    GrantDid {
        fuel: refuel(f, sum),
        answer: Answer::Accepted,
    }
}

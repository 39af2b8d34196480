// coro.rs: unbank, arm_close, set_finalizing.
ghost use Rattle.std.specs.Prelude.{◌≡◌, not, ◌&&◌, eqb};
ghost use Rattle.model.specs.Fuel.{unbank_at, arm_at, set_finalizing};
ghost use Rattle.memory_world.specs.Lendings.{none};
ghost use Rattle.memory_world.specs.Contract.{Leaves, any, every, with};

use memory_world::machine::Machine;
use model::machine::Fuel;

// What a call leaves of the numbers and of the fuel.
#[derive(Clone, Copy)]
pub struct FuelDid {
    pub machine: Machine,
    pub fuel: Fuel,
}

// coro.rs: unbank.
pub fn unbank(f: Fuel) -> Fuel
    ensures { result ≡ unbank_at f.bank f }
{
    let bank = f.bank;
    match bank {
        None => f,
        Some(n) => Fuel {
            fuel: n,
            bank: None,
            ready: f.ready,
        },
    }
}

// coro.rs: arm_close.
pub fn arm_close(f: Fuel) -> Fuel
    ensures { result ≡ arm_at f.bank f }
{
    let bank = f.bank;
    match bank {
        None => {
            if f.ready {
                Fuel {
                    fuel: 0,
                    bank: Some(f.fuel),
                    ready: f.ready,
                }
            } else {
                f
            }
        }
        Some(_) => f,
    }
}

// Whether a cleanup may start.
fn close_ready(running: bool, waiting: usize) -> bool
    ensures { result ≡ not running && not (eqb waiting 0) }
{
    if running { false } else { waiting != 0 }
}

// coro.rs: set_finalizing.
pub fn set_finalizing(m: Machine, f: Fuel, running: bool) -> FuelDid
    ensures { every (λ sizes. Leaves any sizes (set_finalizing running) none (with m f) (with result.machine result.fuel)) }
{
    let ready = close_ready(running, m.finalize);
    let mut n = m;
    n.finalizing = running;
    let mut g = f;
    g.ready = ready;
    let fuel = arm_close(g);
    FuelDid { machine: n, fuel }
}

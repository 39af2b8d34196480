// The chain of active coroutines, bottom first in a lent slice; `n` is their number.
ghost use Rattle.std.specs.Prelude.{◌+◌, ◌-◌, ◌*◌, ◌≤◌, ◌∷◌, length, drop};
ghost use Rattle.model.specs.Coro.{active};
ghost use Rattle.memory_tables.specs.Does.{ChainDo};

use crate::active::{ACTIVE_WIDTH, put_active};
use model::machine::{Active, Driver};

// One active coroutine more.
pub fn push_active(chain: &mut [u64], n: usize, coro: u64, floor: u64, driver: Driver)
    requires { n * 6 + 6 ≤ length chain.old }
    ensures { ChainDo (λ cs. active coro floor driver ∷ cs) chain.old chain.new n (n + 1) }
{
    let a = Active {
        coro,
        floor,
        driver,
    };
    put_active(chain, n, a);
}

// The innermost one goes.
pub fn pop_active(chain: &mut [u64], n: usize)
    requires { (1 ≤ n) × (n * 6 ≤ length chain.old) }
    ensures { ChainDo (drop 1) chain.old chain.new n (n - 1) }
{
    let at = (n - 1) * ACTIVE_WIDTH;
    lists::clear_words(&mut chain[at..at + ACTIVE_WIDTH]);
}

// The numbers that are no counts: the outcome and the fuel.
ghost use Rattle.std.specs.Prelude.{◌≡◌};
ghost use Rattle.check_machine.specs.Numbers.{outcome_test, fuel_test};

use heap::value::BITS32;
use memory_world::machine::Told;
use memory_world::outcome;
use model::machine::Fuel;

// An outcome's four words.
pub fn outcome_ok(t: Told) -> bool
    ensures { result ≡ outcome_test t }
{
    let code = t.0;
    if outcome::CLOSE_IGNORED < code {
        return false;
    }
    if code == outcome::FAILED {
        if BITS32 <= t.2 {
            return false;
        }
        return t.3 < BITS32;
    }
    if t.2 != 0 {
        return false;
    }
    if t.3 != 0 {
        return false;
    }
    if code == outcome::NONE {
        return t.1 == 0;
    }
    if code == outcome::CLOSE_IGNORED {
        return t.1 == 0;
    }
    true
}

// "fuel 0 while banked"
pub fn fuel_ok(f: Fuel) -> bool
    ensures { result ≡ fuel_test f }
{
    let bank = f.bank;
    match bank {
        None => true,
        Some(_) => f.fuel == 0,
    }
}

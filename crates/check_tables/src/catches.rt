// One more than the largest catch register of each function: so many words a frame of it has at least.
ghost use Rattle.std.specs.Prelude.{◌≡◌, true, take};
ghost use Rattle.memory_tables.specs.Layout.{handlers_from};
ghost use Rattle.memory_world.specs.Decode.{setup_of};
ghost use Rattle.memory_sound.specs.Words.{setup_held};
ghost use Rattle.check_tables.specs.Frames.{catch_width, Catches};
ghost use Rattle.check_tables.specs.Catch.{CatchFits};

use memory_tables::layout;
use memory_tables::program::{FUNCTION_WIDTH, HANDLER_WIDTH, NUMBERS_WIDTH};
use model::program::MOST_FUNCTIONS;

// Of the n handlers from word `at` on.
fn widest_catch(setup: &[u64], at: usize, n: usize) -> u64
    requires { CatchFits setup.now at n }
    ensures { result ≡ catch_width (take n (handlers_from 8 setup.now at)) }
{
    let mut most: u64 = 0;
    for j in (0..n).rev() {
        let c = setup[at + j * HANDLER_WIDTH + layout::CATCH];
        most = (c + 1).max(most);
    }
    most
}

// Of each function of an accepted set-up.
pub fn catches(setup: &[u64]) -> [u64; MOST_FUNCTIONS]
    requires { setup_held setup.now ≡ true }
    ensures { Catches (setup_of setup.now) result }
{
    let n = setup[layout::FUNCTIONS] as usize;
    let mut need = [0u64; MOST_FUNCTIONS];
    for i in 0..n {
        let at = NUMBERS_WIDTH + i * FUNCTION_WIDTH;
        let k = setup[at + layout::HANDLERS] as usize;
        need[i] = widest_catch(setup, at + layout::FIRST_HANDLER, k);
    }
    need
}

// The set-up's numbers by value, read from its words.
ghost use Rattle.std.specs.Prelude.{◌≡◌, max};
ghost use Rattle.model.specs.Sound.{row_words};
ghost use Rattle.memory_world.specs.Decode.{setup_of};
ghost use Rattle.memory_world.specs.Sizes.{SetupFits, SizesTold};

use crate::machine::Sizes;
use memory_tables::layout;
use memory_tables::program::{FUNCTION_WIDTH, NUMBERS_WIDTH};

fn larger(a: usize, b: usize) -> usize
    ensures { result ≡ max a b }
{
    a.max(b)
}

// The words of a row: as many as the stack's, or the widest function's.
fn row_words(setup: &[u64]) -> usize
    requires { SetupFits setup.now }
    ensures { result ≡ row_words (setup_of setup.now) }
{
    let n = setup[layout::FUNCTIONS] as usize;
    let mut most = setup[layout::STACK] as usize;
    for i in 0..n {
        let at = NUMBERS_WIDTH + i * FUNCTION_WIDTH;
        let regs = setup[at] as usize;
        most = larger(most, regs);
    }
    most
}

// The limits, the words of a row, and the costs.
pub fn sizes(setup: &[u64]) -> Sizes
    requires { SetupFits setup.now }
    ensures { SizesTold setup.now result }
{
    let limits = memory_tables::program::limits(setup);
    let costs = memory_tables::program::costs(setup);
    let width = row_words(setup);
    Sizes {
        depth: limits.depth as usize,
        stack: limits.stack as usize,
        rows: limits.rows as usize,
        slots: limits.slots as usize,
        memory: limits.memory,
        width,
        costs,
    }
}

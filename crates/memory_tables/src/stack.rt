// The stack in a lent slice; `height` is the number of its words.
ghost use Rattle.std.specs.Prelude.{◌+◌, ◌-◌, ◌*◌, ◌≤◌, length, take};
ghost use Rattle.memory_tables.specs.Does.{StackDo, RegFits, Puts, Gets};

use crate::frame::base_at;

// A word into a register of the top frame.
pub fn put_reg(stack: &mut [u64], frames: &[u64], height: usize, depth: usize, r: usize, v: u64)
    requires { RegFits stack.old frames.now height depth r }
    ensures { Puts stack.old frames.now stack.new height depth r v }
{
    let base = base_at(frames, depth - 1);
    let at = base + r;
    stack[at] = v;
}

// The word in a register of the top frame.
pub fn reg(stack: &[u64], frames: &[u64], height: usize, depth: usize, r: usize) -> u64
    requires { RegFits stack.now frames.now height depth r }
    ensures { Gets stack.now frames.now height depth r result }
{
    let low = base_at(frames, depth - 1);
    let i = low + r;
    stack[i]
}

// The words from index `base` on go.
pub fn cut(stack: &mut [u64], height: usize, base: usize)
    requires { (base ≤ height) × (height ≤ length stack.old) }
    ensures { StackDo (take base) stack.old stack.new height base }
{
    lists::clear_words(&mut stack[base..height]);
}

// The slots from the last to the first, with the rows that they hold; then the rows that nobody holds.
ghost use Rattle.std.specs.Prelude.{◌≡◌, ◌&&◌, ◌||◌, ℕ, ◌<◌, eqb};
ghost use Rattle.heap.specs.Heap.{SlotFits};
ghost use Rattle.memory_world.specs.Decode.{setup_of};
ghost use Rattle.check_tables.specs.Queue.{bit_at, in_set};
ghost use Rattle.check_machine.specs.Table.{ranges_test};
ghost use Rattle.check_machine.specs.Rows.{coro_row, slot_row, held_bit, row_free, free_test, rows_test, RowsFit, SlotsFit, FreeFits};

use crate::running::{SET_WIDTH, in_set};
use crate::saved::{coro_ok, row_rest};
use check_tables::queue::{bit, with_bit};
use heap::object::CoroObj;
use memory_tables::frame::FRAME_WIDTH;
use memory_world::machine::Sizes;
use model::program::{MOST_FUNCTIONS, MOST_ROWS};

// No row; and what is refused.
const NONE: u64 = MOST_ROWS as u64;

const REFUSED: u64 = NONE + 1;

// The row that the coroutine at slot i holds. A Running one is in the set of the chain's.
fn coro_row(
    saved_stack: &[u64],
    saved_frames: &[u64],
    setup: &[u64],
    need: &[u64; MOST_FUNCTIONS],
    set: &[u64; SET_WIDTH],
    sizes: Sizes,
    i: usize,
    c: CoroObj,
) -> u64
    requires { RowsFit saved_stack.now saved_frames.now need.now setup.now set.now sizes × (i < 4096) }
    ensures { result ≡ coro_row sizes (setup_of setup.now) saved_stack.now saved_frames.now (in_set set.now) i c }
{
    if !coro_ok(saved_stack, saved_frames, setup, need, sizes, c) {
        return REFUSED;
    }
    let state = c.state;
    if state.is_finished() {
        return NONE;
    }
    if state.is_running() {
        if !in_set(set, i) {
            return REFUSED;
        }
    }
    c.row
}

// The row that slot i holds.
fn slot_row(
    slots: &[u64],
    saved_stack: &[u64],
    saved_frames: &[u64],
    setup: &[u64],
    need: &[u64; MOST_FUNCTIONS],
    set: &[u64; SET_WIDTH],
    sizes: Sizes,
    i: usize,
) -> u64
    requires { RowsFit saved_stack.now saved_frames.now need.now setup.now set.now sizes × (SlotFits slots.now i × (i < 4096)) }
    ensures { result ≡ slot_row sizes (setup_of setup.now) saved_stack.now saved_frames.now (in_set set.now) slots.now i }
{
    if heap::slot::is_coro(slots, i) {
        let c = heap::slot::coro_at(slots, i);
        return coro_row(saved_stack, saved_frames, setup, need, set, sizes, i, c);
    }
    NONE
}

// Whether a row is in the set of rows; a set with one row more.
fn is_held(mask: u64, row: u64) -> bool
    ensures { result ≡ held_bit mask row }
{
    row < NONE && bit(mask, row)
}

fn hold(mask: u64, row: u64) -> u64
    ensures { (j : ℕ) → j < 64 → bit_at result j ≡ eqb j row || bit_at mask j }
{
    if row < NONE {
        with_bit(mask, row)
    } else {
        mask
    }
}

// Row n has only zeros.
fn row_free(saved_stack: &[u64], saved_frames: &[u64], sizes: Sizes, n: usize) -> bool
    requires { FreeFits saved_stack.now saved_frames.now sizes × (n < sizes.rows) }
    ensures { result ≡ row_free sizes saved_stack.now saved_frames.now n }
{
    row_rest(saved_stack, n, sizes.width, 0)
        && row_rest(saved_frames, n, sizes.depth * FRAME_WIDTH, 0)
}

// Row n is in the set, or has only zeros.
fn free_at(saved_stack: &[u64], saved_frames: &[u64], sizes: Sizes, mask: u64, n: usize) -> bool
    requires { FreeFits saved_stack.now saved_frames.now sizes × (n < sizes.rows) }
    ensures { result ≡ (bit_at mask n || row_free sizes saved_stack.now saved_frames.now n) }
{
    bit(mask, n as u64) || row_free(saved_stack, saved_frames, sizes, n)
}

// Each row does.
fn free_ok(saved_stack: &[u64], saved_frames: &[u64], sizes: Sizes, mask: u64) -> bool
    requires { FreeFits saved_stack.now saved_frames.now sizes }
    ensures { result ≡ free_test sizes saved_stack.now saved_frames.now (λ n. bit_at mask n) }
{
    (0..sizes.rows).all(|n| free_at(saved_stack, saved_frames, sizes, mask, n))
}

// All slots with their rows: words in their ranges, each row held by one, and zeros in the others.
pub fn rows_ok(
    slots: &[u64],
    count: usize,
    saved_stack: &[u64],
    saved_frames: &[u64],
    setup: &[u64],
    need: &[u64; MOST_FUNCTIONS],
    set: &[u64; SET_WIDTH],
    sizes: Sizes,
) -> bool
    requires { SlotsFit saved_stack.now saved_frames.now need.now setup.now set.now slots.now sizes count }
    ensures { result ≡ (ranges_test slots.now count && rows_test sizes (setup_of setup.now) saved_stack.now saved_frames.now (in_set set.now) slots.now count) }
{
    let mut mask: u64 = 0;
    for i in (0..count).rev() {
        if !heap::ranges::slot_ok_at(slots, i) {
            return false;
        }
        let row = slot_row(slots, saved_stack, saved_frames, setup, need, set, sizes, i);
        if row == REFUSED {
            return false;
        }
        if is_held(mask, row) {
            return false;
        }
        mask = hold(mask, row);
    }
    free_ok(saved_stack, saved_frames, sizes, mask)
}

// The lowest free row, by one pass over the slots into 64 flags: a set-up has at most 64 rows.
ghost use Rattle.std.specs.Prelude.{◌≡◌, ◌*◌, ◌≤◌, Bool, false, length, replicate, slice_index_or};
ghost use Rattle.heap.specs.Heap.{slots_of, TableFits};
ghost use Rattle.model.specs.Rows.{lowest_free};
ghost use Rattle.coro_create.specs.Row.{row_of, held_in, marked, lowest_by};

use heap::object::{CoroState, Object};
use model::program::MOST_ROWS;

// No row.
const NONE: u64 = MOST_ROWS as u64;

// The row that an object holds, or none.
fn row_of(o: Object) -> u64
    ensures { result ≡ row_of o }
{
    match o {
        Object::Empty => NONE,
        Object::Func(_) => NONE,
        Object::Int(_) => NONE,
        Object::Iter {
            src: _,
            done: _,
            key: _,
        } => NONE,
        Object::Error {
            kind: _,
            func: _,
            pc: _,
            payload: _,
        } => NONE,
        Object::Coro(c) => match c.state {
            CoroState::Created | CoroState::Running | CoroState::Yielded | CoroState::Awaiting =>
                c.row,
            CoroState::Returned | CoroState::Failed => NONE,
        },
    }
}

// A mark for each row that is held.
fn held_rows(slots: &[u64], count: usize) -> [bool; MOST_ROWS]
    requires { TableFits slots.now count }
    ensures { result ≡ marked (slots_of count slots.now) (replicate {A = Bool} 64 false) }
{
    let mut held = [false; MOST_ROWS];
    for i in 0..count {
        let row = row_of(heap::slot::object_at(slots, i));
        if row < NONE {
            held[row as usize] = true;
        }
    }
    held
}

// The lowest of so many rows that has no mark, or their number.
fn lowest(held: [bool; MOST_ROWS], rows: usize) -> usize
    requires { rows ≤ 64 }
    ensures { result ≡ lowest_by (λ n. slice_index_or held n false) rows 0 }
{
    for i in 0..rows {
        if !held[i] {
            return i;
        }
    }
    rows
}

// The lowest of so many rows that no object holds, or their number.
pub(crate) fn lowest_free_row(slots: &[u64], count: usize, rows: usize) -> usize
    requires { TableFits slots.now count × (rows ≤ 64) }
    ensures { result ≡ lowest_free rows 0 (held_in (slots_of count slots.now)) }
{
    lowest(held_rows(slots, count), rows)
}

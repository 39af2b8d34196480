// coro.rs: finish, of a coroutine.
ghost use Rattle.std.specs.Prelude.{◌≡◌, ◌+◌, ◌*◌, ◌≤◌, length};
ghost use Rattle.heap.specs.Heap.{put_slot, SlotFits};
ghost use Rattle.heap.specs.Table.{slot};
ghost use Rattle.heap.specs.Word.{tag_of};
ghost use Rattle.heap.specs.declared.object.Object.TheVariants.{Coro};
ghost use Rattle.model.specs.Coro.{finish_coroutine};
ghost use Rattle.coro_end.specs.Finish.{FinishFits, ended_as, RowFits, Cleared, FreeFits, Freed};
ghost use Rattle.memory_world.specs.Lendings.{rows, plain};
ghost use Rattle.memory_world.specs.Contract.{Leaves, if_rowed, only, of_mut};

use heap::object::{CoroObj, CoroState, Object};
use heap::value::{Obj, Word};
use memory_tables::frame::FRAME_WIDTH;
use memory_tables::runs::clear_part;
use memory_world::machine::{Machine, Sizes};

// The words of a row become 0.
pub(crate) fn clear_row(saved_stack: &mut [u64], saved_frames: &mut [u64], sizes: Sizes, c: CoroObj)
    requires { RowFits saved_stack.old saved_frames.old sizes c }
    ensures { Cleared saved_stack.old saved_frames.old saved_stack.new saved_frames.new sizes c }
{
    let at = (c.row as usize) * sizes.width;
    let n = c.regs as usize;
    clear_part(saved_stack, at, n);
    let from = (c.row as usize) * (sizes.depth * FRAME_WIDTH);
    let k = (c.frames as usize) * FRAME_WIDTH;
    clear_part(saved_frames, from, k);
}

// An unfinished coroutine gives back its row.
pub(crate) fn give_back_row(
    saved_stack: &mut [u64],
    saved_frames: &mut [u64],
    sizes: Sizes,
    c: CoroObj,
)
    requires { FreeFits saved_stack.old saved_frames.old sizes c }
    ensures { Freed saved_stack.old saved_frames.old saved_stack.new saved_frames.new sizes c }
{
    let state = c.state;
    if state.is_finished() {
        return;
    }
    clear_row(saved_stack, saved_frames, sizes, c);
}

// The record of a coroutine that has ended.
fn ended(c: CoroObj, s: CoroState, res: u64) -> CoroObj
    ensures { result ≡ ended_as s res c }
{
    CoroObj {
        state: s,
        closing: false,
        finalized: c.finalized,
        task: c.task,
        seq: c.seq,
        row: 0,
        regs: 0,
        frames: 0,
        maxregs: 0,
        maxframes: 0,
        waiting: c.waiting,
        payload: c.payload,
        key: c.key,
        largest: c.largest,
        result: res,
        signal: Word::NIL,
    }
}

// Its slot says how it ended.
pub(crate) fn mark_ended(slots: &mut [u64], i: usize, v: u64, c: CoroObj, s: CoroState, res: u64)
    requires { SlotFits slots.old i }
    ensures { slots.new ≡ put_slot slots.old i (slot (tag_of v) (Coro (ended_as s res c))) }
{
    let tag = Obj(v).tag();
    let d = ended(c, s, res);
    heap::slot::put_slot(slots, i, tag, Object::Coro(d));
}

// coro.rs: finish, of a coroutine: it is Returned or Failed.
pub fn finish_coroutine(
    slots: &mut [u64],
    saved_stack: &mut [u64],
    saved_frames: &mut [u64],
    m: Machine,
    sizes: Sizes,
    v: Word,
    s: CoroState,
    res: u64,
)
    requires { FinishFits sizes (rows slots.old saved_stack.old saved_frames.old plain) m s }
    ensures { Leaves if_rowed sizes (finish_coroutine v.0 s res) (rows (of_mut slots) (of_mut saved_stack) (of_mut saved_frames)) (only m) (only m) }
{
    match heap::heap::coro(slots, m.count, v) {
        Err(_) => {}
        Ok((i, c)) => {
            give_back_row(saved_stack, saved_frames, sizes, c);
            mark_ended(slots, i, v.0, c, s, res);
        }
    }
}

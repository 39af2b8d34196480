// heap.rs: get_mut, of an iterator: its key and its mark replaced.
ghost use Rattle.std.specs.Prelude.{◌≡◌, ◌+◌, ◌*◌, ◌≤◌, length};
ghost use Rattle.heap.specs.Heap.{slots_of, put_slot, TableFits, SlotFits};
ghost use Rattle.heap.specs.Table.{slot};
ghost use Rattle.heap.specs.Word.{tag_of};
ghost use Rattle.heap.specs.declared.object.Object.TheVariants.{Iter};
ghost use Rattle.model.specs.Heap.{set_key, set_done};
ghost use Rattle.coro_end.specs.Iter.{iter_of};
ghost use Rattle.memory_world.specs.Lendings.{table};
ghost use Rattle.memory_world.specs.Contract.{Leaves, any, every, only, of_mut};

use heap::object::Object;
use heap::value::{Obj, Word};
use memory_world::machine::Machine;

// The iterator that a word names: its slot, and what it holds.
#[derive(Clone, Copy)]
pub struct Iterator {
    pub slot: usize,
    pub src: u64,
    pub done: bool,
    pub key: Option<u64>,
}

// heap.rs: get, of an iterator.
pub(crate) fn iter_at(slots: &[u64], count: usize, v: Word) -> Option<Iterator>
    requires { TableFits slots.now count }
    ensures { result ≡ iter_of (slots_of count slots.now) v.0 }
{
    match heap::heap::get(slots, count, v) {
        None => None,
        Some(i) => match heap::slot::object_at(slots, i) {
            Object::Empty => None,
            Object::Func(_) => None,
            Object::Int(_) => None,
            Object::Iter { src, done, key } => Some(Iterator {
                slot: i,
                src,
                done,
                key,
            }),
            Object::Error {
                kind: _,
                func: _,
                pc: _,
                payload: _,
            } => None,
            Object::Coro(_) => None,
        },
    }
}

// An iterator into the slot that its word names.
pub(crate) fn put_iter(slots: &mut [u64], i: usize, v: u64, src: u64, done: bool, key: Option<u64>)
    requires { SlotFits slots.old i }
    ensures { slots.new ≡ put_slot slots.old i (slot (tag_of v) (Iter src done key)) }
{
    let tag = Obj(v).tag();
    heap::slot::put_slot(slots, i, tag, Object::Iter { src, done, key });
}

// An iterator's key replaced, where the word names one.
pub fn set_key(slots: &mut [u64], m: Machine, v: Word, key: u64)
    requires { TableFits slots.old m.count }
    ensures { every (λ sizes. Leaves any sizes (set_key v.0 key) (table (of_mut slots)) (only m) (only m)) }
{
    match iter_at(slots, m.count, v) {
        Some(x) => put_iter(slots, x.slot, v.0, x.src, x.done, Some(key)),
        None => {}
    }
}

// An iterator marked as done, where the word names one.
pub fn set_done(slots: &mut [u64], m: Machine, v: Word)
    requires { TableFits slots.old m.count }
    ensures { every (λ sizes. Leaves any sizes (set_done v.0) (table (of_mut slots)) (only m) (only m)) }
{
    match iter_at(slots, m.count, v) {
        Some(x) => put_iter(slots, x.slot, v.0, x.src, true, x.key),
        None => {}
    }
}

// heap.rs: get, of a function and of an iterator: the kind's word tells, and no other object is decoded.
ghost use Rattle.std.specs.Prelude.{◌≡◌};
ghost use Rattle.heap.specs.Object.{is_done};
ghost use Rattle.heap.specs.Heap.{TableFits, SlotFits, slot_in, slots_of};
ghost use Rattle.heap.specs.Kind.{as_callee, callee_of, done_of};

use crate::fault::Fault;
use crate::field::{flag_at, word_at};
use crate::heap::{get, not_a};
use crate::layout;
use crate::value::Word;

// The function at place i.
fn callee_at(slots: &[u64], i: usize) -> Result<u64, Fault>
    requires { SlotFits slots.now i }
    ensures { result ≡ as_callee (slot_in slots.now i).object }
{
    let kind = word_at(slots, i, layout::KIND);
    if kind == 1 {
        return Ok(word_at(slots, i, layout::FIRST));
    }
    Err(Fault::TypeError)
}

// The function that a word names; coll: not_a.
pub fn callee(slots: &[u64], count: usize, w: Word) -> Result<u64, Fault>
    requires { TableFits slots.now count }
    ensures { result ≡ callee_of (slots_of count slots.now) w.0 }
{
    let Some(i) = get(slots, count, w) else {
        return Err(not_a(slots, count, w));
    };
    callee_at(slots, i)
}

// Whether an iterator that is done stands at place i.
fn done_at(slots: &[u64], i: usize) -> bool
    requires { SlotFits slots.now i }
    ensures { result ≡ is_done (slot_in slots.now i).object }
{
    let kind = word_at(slots, i, layout::KIND);
    match kind {
        3 => flag_at(slots, i, layout::SECOND),
        4 => flag_at(slots, i, layout::SECOND),
        _ => false,
    }
}

// Whether a word names an iterator that is done.
pub fn is_done(slots: &[u64], count: usize, w: Word) -> bool
    requires { TableFits slots.now count }
    ensures { result ≡ done_of (slots_of count slots.now) w.0 }
{
    let Some(i) = get(slots, count, w) else {
        return false;
    };
    done_at(slots, i)
}

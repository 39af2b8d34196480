// heap.rs: the object table in lent words, its lookups, charges and allocations.
ghost use Rattle.std.specs.Prelude.{◌≡◌};
ghost use Rattle.heap.specs.Word.{class_of};
ghost use Rattle.heap.specs.Int.{exactly, value_of};
ghost use Rattle.heap.specs.Object.{is_filled, int_of};
ghost use Rattle.heap.specs.Table.{get, not_a, dyn_int_of};
ghost use Rattle.heap.specs.Charge.{sat_add, fits, charge_of};
ghost use Rattle.heap.specs.Heap.{TableFits, slots_of, place_of, coro_of, Room, out, lacks_of, alloc_of, encode_of, int_by, to_dyn};
ghost use Rattle.heap.specs.declared.object.Object.TheVariants.{Empty};

use crate::fault::Fault;
use crate::int::IntTy;
use crate::object::{CoroObj, Object};
use crate::slot;
use crate::value::{Class, MOST64, Word};

// heap.rs: Heap, as numbers: slots taken, slots there are, bytes charged, and the memory limit.
#[derive(Clone, Copy)]
pub struct Heap {
    pub count: usize,
    pub slots: usize,
    pub used: u64,
    pub limit: u64,
}

// 01: "Result kinds: none, dynamic word, i64, u64."
#[derive(Clone, Copy)]
pub enum ResultKind {
    None,
    Dyn,
    I64,
    U64,
}

// heap.rs: get.
pub fn get(slots: &[u64], count: usize, w: Word) -> Option<usize>
    requires { TableFits slots.now count }
    ensures { result ≡ get Empty is_filled (slots_of count slots.now) w.0 }
{
    let Class::Ref(o) = w.class() else {
        return None;
    };
    let i = o.slot();
    if count <= i {
        return None;
    }
    if slot::tag_at(slots, i) != o.tag() {
        return None;
    }
    if slot::filled_at(slots, i) {
        Some(i)
    } else {
        None
    }
}

// heap.rs: coro, or coll: not_a; where the coroutine stands.
pub fn coro_place(slots: &[u64], count: usize, w: Word) -> Result<usize, Fault>
    requires { TableFits slots.now count }
    ensures { result ≡ place_of (coro_of (slots_of count slots.now) w.0) }
{
    match get(slots, count, w) {
        None => Err(not_a(slots, count, w)),
        Some(i) => {
            if slot::is_coro(slots, i) {
                return Ok(i);
            }
            Err(Fault::TypeError)
        }
    }
}

// heap.rs: coro, or coll: not_a.
pub fn coro(slots: &[u64], count: usize, w: Word) -> Result<(usize, CoroObj), Fault>
    requires { TableFits slots.now count }
    ensures { result ≡ coro_of (slots_of count slots.now) w.0 }
{
    match coro_place(slots, count, w) {
        Err(f) => Err(f),
        Ok(i) => {
            let c = slot::coro_at(slots, i);
            Ok((i, c))
        }
    }
}

// coll: not_a, the fault of a word that is not the object that was asked for.
pub fn not_a(slots: &[u64], count: usize, w: Word) -> Fault
    requires { TableFits slots.now count }
    ensures { result ≡ not_a (class_of w.0) (get Empty is_filled (slots_of count slots.now) w.0) }
{
    match w.class() {
        Class::Nil => Fault::NullReference,
        Class::Ref(_) => match get(slots, count, w) {
            None => Fault::NullReference,
            Some(_) => Fault::TypeError,
        },
        Class::Int(_) => Fault::TypeError,
        Class::Opaque => Fault::TypeError,
    }
}

// The integer of an integer object.
fn int_in(o: Object) -> Option<u64>
    ensures { result ≡ int_of o }
{
    match o {
        Object::Empty => None,
        Object::Func(_) => None,
        Object::Int(n) => Some(n),
        Object::Iter {
            src: _,
            done: _,
            key: _,
        } => None,
        Object::Error {
            kind: _,
            func: _,
            pc: _,
            payload: _,
        } => None,
        Object::Coro(_) => None,
    }
}

// conv: dyn_int.
pub fn dyn_int(slots: &[u64], count: usize, w: Word) -> Option<u64>
    requires { TableFits slots.now count }
    ensures { result ≡ dyn_int_of Empty is_filled int_of (slots_of count slots.now) w.0 }
{
    match w.class() {
        Class::Nil => None,
        Class::Ref(o) => match get(slots, count, Word(o.0)) {
            None => None,
            Some(i) => int_in(slot::object_at(slots, i)),
        },
        Class::Int(n) => Some(n),
        Class::Opaque => None,
    }
}

// saturating_add
pub(crate) fn sat_add(a: u64, b: u64) -> u64
    ensures { result ≡ sat_add a b }
{
    if a <= MOST64 - b { a + b } else { MOST64 }
}

impl Heap {
    // heap.rs: fits.
    pub fn fits(self, bytes: u64) -> bool
        ensures { result ≡ fits self.used self.limit bytes }
    {
        sat_add(self.used, bytes) <= self.limit
    }

    // heap.rs: charge.
    pub fn charge(self, bytes: u64) -> Result<Heap, Fault>
        ensures { result ≡ charge_of self bytes }
    {
        if self.fits(bytes) {
            Ok(Heap {
                count: self.count,
                slots: self.slots,
                used: sat_add(self.used, bytes),
                limit: self.limit,
            })
        } else {
            Err(Fault::OutOfMemory)
        }
    }

    // What an allocation lacks: memory (9), then a slot (14).
    pub fn lacks(self, bytes: u64) -> Result<(), Fault>
        ensures { result ≡ lacks_of self bytes }
    {
        if !self.fits(bytes) {
            return Err(Fault::OutOfMemory);
        }
        if self.count < self.slots {
            Ok(())
        } else {
            Err(Fault::Full)
        }
    }
}

// heap.rs: alloc.
pub fn alloc(slots: &mut [u64], h: Heap, bytes: u64, o: Object) -> Result<(Word, Heap), Fault>
    requires { Room slots.old h }
    ensures { out result slots.new ≡ alloc_of slots.old h bytes o }
{
    h.lacks(bytes)?;
    let i = h.count;
    slot::put_slot(slots, i, 0, o);
    Ok((
        Word::reference(i as u32, 0),
        Heap {
            count: i + 1,
            slots: h.slots,
            used: sat_add(h.used, bytes),
            limit: h.limit,
        },
    ))
}

// conv: encode_int; `bytes` is the cost of an integer object.
pub fn encode_int(slots: &mut [u64], h: Heap, bytes: u64, n: u64) -> Result<(Word, Heap), Fault>
    requires { Room slots.old h }
    ensures { out result slots.new ≡ encode_of slots.old h bytes n }
{
    match Word::inline_int(n) {
        Some(w) => Ok((w, h)),
        None => alloc(slots, h, bytes, Object::Int(n)),
    }
}

fn int_to_dyn(
    slots: &mut [u64],
    h: Heap,
    bytes: u64,
    ty: IntTy,
    n: u64,
) -> Result<(Word, Heap), Fault>
    requires { Room slots.old h }
    ensures { out result slots.new ≡ int_by (exactly (value_of ty n)) slots.old h bytes }
{
    match crate::int::value(ty, n) {
        Some(v) => encode_int(slots, h, bytes, v),
        None => Err(Fault::ArithOverflow),
    }
}

// conv: to_dyn; `bytes` is the cost of an integer object.
pub fn to_dyn(
    slots: &mut [u64],
    h: Heap,
    bytes: u64,
    kind: ResultKind,
    n: u64,
) -> Result<(Word, Heap), Fault>
    requires { Room slots.old h }
    ensures { out result slots.new ≡ to_dyn kind slots.old h bytes n }
{
    match kind {
        ResultKind::None => Ok((Word::nil(), h)),
        ResultKind::Dyn => Ok((Word(n), h)),
        ResultKind::I64 => int_to_dyn(slots, h, bytes, IntTy::I64, n),
        ResultKind::U64 => int_to_dyn(slots, h, bytes, IntTy::U64, n),
    }
}

// The layout of a slot: tag, kind and fields in 20 words. Only this crate knows it.
ghost use Rattle.std.specs.Prelude.{◌≡◌, length, get_or, eqb};
ghost use Rattle.lists.specs.Chunks.{chunk_at, put_chunk};
ghost use Rattle.heap.specs.Table.{slot};
ghost use Rattle.heap.specs.Object.{is_filled};
ghost use Rattle.heap.specs.Slot.{coro_at, object_at, fields_of, fills, slot_words, entered_words, yielded_words, suspended_words};
ghost use Rattle.heap.specs.Heap.{SlotFits, slot_in, put_slot};
ghost use Rattle.heap.specs.declared.object.Object.TheVariants.{Iter, Coro};

use crate::int::larger;
use crate::layout;
use crate::object::{CoroObj, CoroState, Object};

// The words of a slot.
pub const WIDTH: usize = 20;

// The coroutine in a slot's words.
fn coro_of(s: &[u64]) -> CoroObj
    requires { length s.now ≡ 20 }
    ensures { result ≡ coro_at s.now }
{
    CoroObj {
        state: CoroState::of_code(s[layout::STATE]),
        closing: s[layout::CLOSING] != 0,
        finalized: s[layout::FINALIZED] != 0,
        task: s[layout::TASK] != 0,
        seq: s[layout::SEQ],
        row: s[layout::ROW],
        regs: s[layout::REGS],
        frames: s[layout::FRAMES],
        maxregs: s[layout::MAXREGS],
        maxframes: s[layout::MAXFRAMES],
        waiting: s[layout::WAITING],
        payload: s[layout::PAYLOAD],
        key: s[layout::KEY],
        largest: s[layout::LARGEST],
        result: s[layout::RESULT],
        signal: s[layout::SIGNAL],
    }
}

// The object in a slot's words.
fn object_of(s: &[u64]) -> Object
    requires { length s.now ≡ 20 }
    ensures { result ≡ object_at s.now }
{
    let kind = s[layout::KIND];
    match kind {
        1 => Object::Func(s[layout::FIRST]),
        2 => Object::Int(s[layout::FIRST]),
        3 => Object::Iter {
            src: s[layout::FIRST],
            done: s[layout::SECOND] != 0,
            key: None,
        },
        4 => Object::Iter {
            src: s[layout::FIRST],
            done: s[layout::SECOND] != 0,
            key: Some(s[layout::THIRD]),
        },
        5 => Object::Error {
            kind: s[layout::FIRST],
            func: s[layout::SECOND],
            pc: s[layout::THIRD],
            payload: s[layout::FOURTH],
        },
        6 => Object::Coro(coro_of(s)),
        _ => Object::Empty,
    }
}

fn coro_words(tag: u64, c: CoroObj) -> [u64; WIDTH]
    ensures { result ≡ slot_words (slot tag (Coro c)) }
{
    let state = c.state;
    [
        tag,
        6,
        state.code(),
        c.closing as u64,
        c.finalized as u64,
        c.task as u64,
        c.seq,
        c.row,
        c.regs,
        c.frames,
        c.maxregs,
        c.maxframes,
        c.waiting,
        c.payload,
        c.key,
        c.largest,
        c.result,
        c.signal,
        0,
        0,
    ]
}

// Tag, kind and up to four fields.
fn fields(tag: u64, kind: u64, a: u64, b: u64, c: u64, d: u64) -> [u64; WIDTH]
    ensures { result ≡ fields_of tag kind a b c d }
{
    [
        tag, kind, a, b, c, d, 0, 0, 0, 0, 0, 0, 0, 0, 0, 0, 0, 0, 0, 0,
    ]
}

fn iter_words(tag: u64, src: u64, done: bool, key: Option<u64>) -> [u64; WIDTH]
    ensures { result ≡ slot_words (slot tag (Iter src done key)) }
{
    match key {
        None => fields(tag, 3, src, done as u64, 0, 0),
        Some(k) => fields(tag, 4, src, done as u64, k, 0),
    }
}

// The words of a slot.
fn words_of(tag: u64, o: Object) -> [u64; WIDTH]
    ensures { result ≡ slot_words (slot tag o) }
{
    match o {
        Object::Empty => fields(tag, 0, 0, 0, 0, 0),
        Object::Func(f) => fields(tag, 1, f, 0, 0, 0),
        Object::Int(n) => fields(tag, 2, n, 0, 0, 0),
        Object::Iter { src, done, key } => iter_words(tag, src, done, key),
        Object::Error {
            kind,
            func,
            pc,
            payload,
        } => fields(tag, 5, kind, func, pc, payload),
        Object::Coro(c) => coro_words(tag, c),
    }
}

// The object at place i.
pub fn object_at(slots: &[u64], i: usize) -> Object
    requires { SlotFits slots.now i }
    ensures { result ≡ (slot_in slots.now i).object }
{
    let b = i * WIDTH;
    let e = b + WIDTH;
    object_of(&slots[b..e])
}

// Whether a coroutine stands at place i.
pub fn is_coro(slots: &[u64], i: usize) -> bool
    requires { SlotFits slots.now i }
    ensures { result ≡ eqb (get_or (chunk_at 20 slots.now i) 1 0) 6 }
{
    let b = i * WIDTH;
    slots[b + layout::KIND] == 6
}

// The coroutine at place i.
pub fn coro_at(slots: &[u64], i: usize) -> CoroObj
    requires { SlotFits slots.now i }
    ensures { result ≡ coro_at (chunk_at 20 slots.now i) }
{
    let b = i * WIDTH;
    let e = b + WIDTH;
    coro_of(&slots[b..e])
}

// The tag at place i.
pub(crate) fn tag_at(slots: &[u64], i: usize) -> u64
    requires { SlotFits slots.now i }
    ensures { result ≡ (slot_in slots.now i).tag }
{
    let b = i * WIDTH;
    slots[b]
}

// Slot i replaced.
pub fn put_slot(slots: &mut [u64], i: usize, tag: u64, o: Object)
    requires { SlotFits slots.old i }
    ensures { slots.new ≡ put_slot slots.old i (slot tag o) }
{
    let b = i * WIDTH;
    let e = b + WIDTH;
    let words = words_of(tag, o);
    lists::copy_words(&mut slots[b..e], &words);
}

// It runs, and nothing is saved; what was saved is among its largest sizes.
fn write_entered(s: &mut [u64])
    requires { length s.old ≡ 20 }
    ensures { s.new ≡ entered_words s.old }
{
    let maxregs = larger(s[layout::MAXREGS], s[layout::REGS]);
    let maxframes = larger(s[layout::MAXFRAMES], s[layout::FRAMES]);
    let state = CoroState::Running;
    s[layout::STATE] = state.code();
    s[layout::REGS] = 0;
    s[layout::FRAMES] = 0;
    s[layout::MAXREGS] = maxregs;
    s[layout::MAXFRAMES] = maxframes;
}

fn write_suspended(s: &mut [u64], c: CoroObj)
    requires { length s.old ≡ 20 }
    ensures { s.new ≡ suspended_words c s.old }
{
    let state = c.state;
    s[layout::STATE] = state.code();
    s[layout::CLOSING] = c.closing as u64;
    s[layout::REGS] = c.regs;
    s[layout::FRAMES] = c.frames;
    s[layout::MAXREGS] = c.maxregs;
    s[layout::MAXFRAMES] = c.maxframes;
    s[layout::WAITING] = c.waiting;
    s[layout::PAYLOAD] = c.payload;
    s[layout::KEY] = c.key;
    s[layout::LARGEST] = c.largest;
    s[layout::SIGNAL] = c.signal;
}

// It yielded: what was saved is not larger than before, and it does not close.
fn write_yielded(
    s: &mut [u64],
    regs: u64,
    frames: u64,
    waiting: u64,
    payload: u64,
    key: u64,
    largest: u64,
)
    requires { length s.old ≡ 20 }
    ensures { s.new ≡ yielded_words regs frames waiting payload key largest s.old }
{
    let state = CoroState::Yielded;
    s[layout::STATE] = state.code();
    s[layout::REGS] = regs;
    s[layout::FRAMES] = frames;
    s[layout::WAITING] = waiting;
    s[layout::PAYLOAD] = payload;
    s[layout::KEY] = key;
    s[layout::LARGEST] = largest;
}

// The coroutine at place i entered: the words that an entry changes.
pub fn put_entered(slots: &mut [u64], i: usize)
    requires { SlotFits slots.old i }
    ensures { slots.new ≡ put_chunk 20 slots.old i (entered_words (chunk_at 20 slots.old i)) }
{
    let b = i * WIDTH;
    let e = b + WIDTH;
    write_entered(&mut slots[b..e]);
}

// The coroutine at place i suspended: the words that a suspension changes.
pub fn put_sleep(slots: &mut [u64], i: usize, c: CoroObj)
    requires { SlotFits slots.old i }
    ensures { slots.new ≡ put_chunk 20 slots.old i (suspended_words c (chunk_at 20 slots.old i)) }
{
    let b = i * WIDTH;
    let e = b + WIDTH;
    write_suspended(&mut slots[b..e], c);
}

// The coroutine at place i yielded: the words that a suspension changes where it saves no more than before and closes nothing.
pub fn put_yielded(
    slots: &mut [u64],
    i: usize,
    regs: u64,
    frames: u64,
    waiting: u64,
    payload: u64,
    key: u64,
    largest: u64,
)
    requires { SlotFits slots.old i }
    ensures { slots.new ≡ put_chunk 20 slots.old i (yielded_words regs frames waiting payload key largest (chunk_at 20 slots.old i)) }
{
    let b = i * WIDTH;
    let e = b + WIDTH;
    write_yielded(
        &mut slots[b..e],
        regs,
        frames,
        waiting,
        payload,
        key,
        largest,
    );
}

// Whether a slot of this kind holds an object.
fn fills(kind: u64) -> bool
    ensures { result ≡ fills kind }
{
    match kind {
        1 => true,
        2 => true,
        3 => true,
        4 => true,
        5 => true,
        6 => true,
        _ => false,
    }
}

// Whether an object stands at place i.
pub(crate) fn filled_at(slots: &[u64], i: usize) -> bool
    requires { SlotFits slots.now i }
    ensures { result ≡ is_filled (slot_in slots.now i).object }
{
    let b = i * WIDTH;
    let kind = slots[b + layout::KIND];
    fills(kind)
}

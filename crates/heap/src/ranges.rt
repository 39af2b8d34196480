// Whether the words of a slot are within the ranges of their places. The table `kinds` decides; straight tests for each kind save time
// (docs/BENCHMARK.md).
ghost use Rattle.std.specs.Prelude.{◌≡◌, [], length, get_or, ◌&&◌, leb};
ghost use Rattle.lists.specs.Chunks.{chunk_at};
ghost use Rattle.heap.specs.Slot.{fields_of};
ghost use Rattle.heap.specs.Heap.{SlotFits};
ghost use Rattle.heap.specs.Ranges.{ranges_of, kinds, within, slot_ok};

use crate::layout;
use crate::slot::WIDTH;
use crate::value::{BITS16, MOST16, MOST32, MOST64};

// The largest values of the tag and the fields of kinds 0, 2, 3 and 4: empty, an integer, an iterator without a key and with one.
const TAG: [u64; 5] = [0, MOST16, MOST16, MOST16, MOST16];

const FIRST: [u64; 5] = [0, 0, MOST64, MOST64, MOST64];

const SECOND: [u64; 5] = [0, 0, 0, 1, 1];

const THIRD: [u64; 5] = [0, 0, 0, 0, MOST64];

// The words of a coroutine: its state, then what the others hold above their bits, in one test.
fn coro_ok(s: &[u64]) -> bool
    requires { (length s.now ≡ 20) × (get_or s.now 1 0 ≡ 6) }
    ensures { result ≡ within (get_or kinds 6 []) s.now }
{
    if 5 < s[layout::STATE] {
        return false;
    }
    let above = [
        s[layout::TAG] / BITS16,
        s[layout::CLOSING] / 2,
        s[layout::FINALIZED] / 2,
        s[layout::TASK] / 2,
        s[layout::WAITING] / BITS16,
        s[layout::ZERO],
        s[layout::LAST],
    ];
    lists::all_zero(&above)
}

// Whether w is one of the numbers from `least` to `most`.
pub fn between(w: u64, least: u64, most: u64) -> bool
    ensures { result ≡ (leb least w && leb w most) }
{
    least <= w && w <= most
}

// Tag, kind and up to four fields are at most these, the first field at least `least`; zeros after them.
fn fields_ok(s: &[u64], least: u64, tag: u64, kind: u64, a: u64, b: u64, c: u64, d: u64) -> bool
    requires { length s.now ≡ 20 }
    ensures { result ≡ within (ranges_of (fields_of 0 0 least 0 0 0) (fields_of tag kind a b c d)) s.now }
{
    if tag < s[layout::TAG] {
        return false;
    }
    if kind < s[layout::KIND] {
        return false;
    }
    if !between(s[layout::FIRST], least, a) {
        return false;
    }
    if b < s[layout::SECOND] {
        return false;
    }
    if c < s[layout::THIRD] {
        return false;
    }
    if d < s[layout::FOURTH] {
        return false;
    }
    lists::all_zero(&s[layout::AFTER..])
}

// The words of a slot lie in the ranges of its kind: few branches, since kinds follow one another in no order.
fn slot_ok(s: &[u64]) -> bool
    requires { length s.now ≡ 20 }
    ensures { result ≡ slot_ok s.now }
{
    let kind = s[layout::KIND];
    if kind == 6 {
        return coro_ok(s);
    }
    if kind == 5 {
        return fields_ok(s, 1, MOST16, 5, 8, MOST32, MOST32, MOST64);
    }
    if 4 < kind {
        return false;
    }
    if kind == 1 {
        return fields_ok(s, 0, MOST16, 1, MOST32, 0, 0, 0);
    }
    let k = kind as usize;
    fields_ok(s, 0, TAG[k], kind, FIRST[k], SECOND[k], THIRD[k], 0)
}

// The words of slot i lie in the ranges of its kind.
pub fn slot_ok_at(slots: &[u64], i: usize) -> bool
    requires { SlotFits slots.now i }
    ensures { result ≡ slot_ok (chunk_at 20 slots.now i) }
{
    let b = i * WIDTH;
    let e = b + WIDTH;
    slot_ok(&slots[b..e])
}

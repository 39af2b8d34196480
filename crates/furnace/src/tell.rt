// What there is to say of a call, and the wakes counted. What the system does with the text no contract says; the counts each has.
// What writes stands apart, never inlined: the room that its text is laid out in is then no part of a frame under which a call is made.
ghost use Rattle.std.specs.Prelude.{◌≡◌, ◌&&◌, ◌+◌, ◌≤◌, length};
ghost use Rattle.model.specs.Answer.{number_of};
ghost use Rattle.furnace.specs.Watch.{is_back, noted_words, one_more, entering, counted, fault_number};

use crate::note::{Count, Seen, note_of};
use crate::page::Page;
use crate::show::{AtHand, Bodies, Picture, Row, Value};
use crate::watch::{
    Part, all_equal, arrives, at_most, coroutine, field, floor, own_base, part_of, woke,
};
use crate::{body, note, show};
use heap::fault::Fault;
use heap::value::Word;
use memory_tables::frame::PC;
use memory_world::machine::Machine;
use model::call::{Answer, Op};
use model::exec::Step;
use model::machine::{Fuel, Stop};

// A sleeper was woken: the stack as it stands, with the registers `top` of the top frame, what it held and what came back. Its note of n words begins at `at`.
fn woken(
    page: &mut Page,
    stack: &[u64],
    frames: &[u64],
    chain: &[u64],
    top: &[u64],
    m: Machine,
    sent: Option<u64>,
    notes: &[u64],
    at: usize,
    n: usize,
    count: Count,
) -> Count
    requires { (at + 32 ≤ length notes.now) × (n ≡ noted_words notes.now at) }
    ensures { result ≡ one_more count (is_back stack.now frames.now chain.now m sent notes.now at) }
{
    let own = own_base(frames, chain, m);
    let height = at_most(stack.len(), m.height);
    let start = at_most(height, own);
    let back = &stack[start..height];
    let first = at + note::WORDS;
    let held = &notes[first..first + n];
    let place = notes[at + note::PLACE] as usize;
    let from = notes[at + note::BASE] as usize;
    let words = woke(held, sent, place, back);
    let low = floor(chain, m.active.saturating_sub(1));
    let bodies = body::back(frames, low, m.depth, notes, at, sent.is_some(), from, own);
    let equal = both(words, bodies);
    let mark = sent.map(|_| place);
    write!(page, " WAKES at height {own} (it slept at {from}), sent ");
    match sent {
        Some(word) => writeln!(page, "{}", Value(word)),
        None => writeln!(page, "nothing"),
    }
    let picture = Picture {
        stack,
        frames,
        chain,
        top,
        m,
        own,
        mark,
    };
    let held = Row {
        words: held,
        mark: None,
    };
    let back = Row { words: back, mark };
    let bodies = Bodies {
        frames,
        floor: low,
        depth: m.depth,
    };
    let verdict = show::verdict(equal, sent.is_some());
    write!(
        page,
        "{picture}     held     {held}{}",
        show::noted(notes, at)
    );
    writeln!(page, "\n     came back{back}{bodies}   {verdict}");
    count.one_more(equal)
}

// Both.
fn both(a: bool, b: bool) -> bool
    ensures { result ≡ a && b }
{
    a && b
}

// A coroutine was entered: it starts, or it is woken.
#[inline(never)]
fn entered(
    page: &mut Page,
    stack: &[u64],
    frames: &[u64],
    chain: &[u64],
    top: &[u64],
    m: Machine,
    sent: Option<u64>,
    notes: &[u64],
    count: Count,
) -> Count
    requires { length notes.now ≡ 128 }
    ensures { result ≡ entering stack.now frames.now chain.now m sent notes.now count }
{
    let c = coroutine(chain, m.active.saturating_sub(1));
    let at = note_of(c);
    let n = at_most(note::MOST_WORDS, notes[at] as usize);
    write!(page, "{}", show::name(c));
    if n == 0 {
        writeln!(page, " starts");
        return count;
    }
    woken(
        page, stack, frames, chain, top, m, sent, notes, at, n, count,
    )
}

// A coroutine sleeps: what it holds, from its note.
fn asleep(page: &mut Page, c: u64, notes: &[u64])
    requires { length notes.now ≡ 128 }
{
    let at = note_of(c);
    let n = at_most(note::MOST_WORDS, notes[at] as usize);
    let first = at + note::WORDS;
    let held = Row {
        words: &notes[first..first + n],
        mark: None,
    };
    write!(page, " sleeps at height {}", notes[at + note::BASE]);
    writeln!(page, " and holds{held}{}", show::noted(notes, at));
}

// A coroutine runs no more: it sleeps, or it has ended.
#[inline(never)]
fn left(page: &mut Page, c: u64, op: Op, notes: &[u64])
    requires { length notes.now ≡ 128 }
{
    write!(page, "{}", show::name(c));
    match part_of(op) {
        Part::Waits(_, _) => asleep(page, c, notes),
        _ => writeln!(page, " ends"),
    }
}

// The fault that an answer tells, if it does: its number is the answer's.
fn fault_of(answer: Answer) -> Option<Fault>
    ensures { fault_number result ≡ number_of answer }
{
    match answer {
        Answer::Refused(fault) => Some(fault),
        Answer::Stepped { step, .. } => match step {
            Step::Fault(fault) | Step::Unwind(fault) => Some(fault),
            Step::Next | Step::Frame => None,
        },
        Answer::Cleanup { .. } => Some(Fault::Throw(Word::NIL)),
        Answer::Unpaid { .. } => Some(Fault::OutOfFuel),
        Answer::Accepted
        | Answer::Word(_)
        | Answer::Exit(_)
        | Answer::Resume
        | Answer::Caught
        | Answer::Stopped
        | Answer::Took(_) => None,
    }
}

// A fault, told to a call made while `coro` ran.
#[inline(never)]
fn refused(page: &mut Page, op: Op, fault: Fault, coro: u64, fuel: Fuel) {
    let n = fault.number();
    let runner = show::runner(coro);
    let fuel = AtHand(fuel);
    match (op, fault) {
        (Op::Unwind { .. }, _) => writeln!(
            page,
            "the host raises what was answered: no handler may take it, and it answers {n} {fuel}"
        ),
        (_, Fault::OutOfFuel) => writeln!(
            page,
            "{runner} tries an instruction without fuel: its call answers {n} {fuel}"
        ),
        (_, Fault::Throw(word)) => writeln!(
            page,
            "a cleanup starts before the next instruction: its call answers {n} with {} {fuel}",
            Value(word)
        ),
        _ => writeln!(page, "{runner} is refused: its call answers {n} {fuel}"),
    }
}

// What a coroutine driven by the host did, as the host takes it.
fn outcome(page: &mut Page, stop: Option<Stop>) {
    match stop {
        None => writeln!(page, "the host takes no outcome"),
        Some(Stop::Yielded(word)) => writeln!(
            page,
            "the host takes the outcome: it yielded {}",
            Value(word)
        ),
        Some(Stop::Awaiting(word)) => writeln!(
            page,
            "the host takes the outcome: it awaits {}",
            Value(word)
        ),
        Some(Stop::Returned(word)) => writeln!(
            page,
            "the host takes the outcome: it returned {}",
            Value(word)
        ),
        Some(Stop::Failed(word, _, _)) => writeln!(
            page,
            "the host takes the outcome: it failed with {}",
            Value(word)
        ),
        Some(Stop::CloseIgnored) => writeln!(
            page,
            "the host takes the outcome: it went on though it was closed"
        ),
    }
}

// Of the calls that were accepted, those that a person wants to see.
#[inline(never)]
fn accepted(page: &mut Page, frames: &[u64], m: Machine, fuel: Fuel, op: Op, answer: Answer) {
    let fuel = AtHand(fuel);
    let depth = m.depth;
    match (op, answer) {
        (Op::Grant { amount }, _) => writeln!(page, "the host grants {amount} {fuel}"),
        (Op::HandOver { coro }, _) => writeln!(
            page,
            "{} is dropped: its cleanup is due {fuel}",
            show::name(coro)
        ),
        (Op::Unwind { .. }, Answer::Caught) if depth > 0 => writeln!(
            page,
            "its handler takes the signal: the cleanup block runs from pc {}",
            field(frames, depth - 1, PC)
        ),
        (Op::StopRun, _) => writeln!(page, "the host stops the run: frames left {depth}"),
        (Op::TakeOutcome, Answer::Took(stop)) => outcome(page, stop),
        _ => {}
    }
}

// After a call: what there is to say of it.
pub(crate) fn after(
    page: &mut Page,
    stack: &[u64],
    frames: &[u64],
    chain: &[u64],
    slots: &[u64],
    saved_stack: &[u64],
    saved_frames: &[u64],
    ready: &[u64],
    finalize: &[u64],
    setup: &[u64],
    m: Machine,
    fuel: Fuel,
    op: Op,
    answer: Answer,
    was: Seen,
    notes: &[u64],
    count: Count,
) -> Count
    requires { length notes.now ≡ 128 }
    ensures { result ≡ counted stack.now frames.now chain.now m (number_of answer) was notes.now count }
{
    let told = memory_calls::answer::words_of(answer);
    match fault_of(answer) {
        Some(fault) if told.0 != 0 => refused(page, op, fault, was.coro, fuel),
        _ => accepted(page, frames, m, fuel, op, answer),
    }
    if was.active < m.active {
        let sent = arrives(told.0, was.sent);
        let top = outer_call::look::look(
            stack,
            frames,
            chain,
            slots,
            saved_stack,
            saved_frames,
            ready,
            finalize,
            setup,
            m,
            fuel,
        );
        return entered(page, stack, frames, chain, top, m, sent, notes, count);
    }
    if m.active < was.active {
        left(page, was.coro, op, notes);
    }
    count
}

// The first lines.
#[inline(never)]
pub(crate) fn heading(page: &mut Page) {
    writeln!(
        page,
        "A furnace line: its scripts (zones, a sensor, a recipe) sleep, and wake at other stack heights."
    );
    writeln!(
        page,
        "  registers  of a zone: setpoint and last reading in degrees, then others; - is nil, @x refers to x"
    );
    writeln!(
        page,
        "  picture    the stack, top frame first: heights | function and pc | script, if it has one | registers"
    );
    writeln!(
        page,
        "  at         the functions and pcs of a sleeper's frames, its body first"
    );
    writeln!(
        page,
        "  sent       the word that a wake hands over, to the register where the sleeper waits; it stands in [ ], and the top pc steps by 1"
    );
    writeln!(page, "");
}

// The last lines.
#[inline(never)]
pub(crate) fn end(page: &mut Page, count: Count) {
    let Count { wakes, equal } = count;
    write!(page, "\n{wakes} wakes, {equal} equal");
    if all_equal(wakes, equal) {
        writeln!(
            page,
            ": each sleeper has its words and frames again, at another height, with the sent word where it waited."
        );
    } else {
        let others = wakes.wrapping_sub(equal);
        writeln!(
            page,
            ", NOT EQUAL {others}: not every sleeper came back with what it held."
        );
    }
}

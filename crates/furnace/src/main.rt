// A furnace line whose scripts sleep and are woken: what each held, and what came back.
#![tactic(auto)]

mod body;
mod call;
mod note;
mod page;
mod show;
mod story;
mod tell;
mod watch;

ghost use Rattle.std.specs.Prelude.{◌≡◌, length};
ghost use Rattle.memory_world.specs.Contract.{at_entry, at_exit, of_mut, of_ref};
ghost use Rattle.outer_call.specs.State.{nine, state};
ghost use Rattle.memory_step.specs.Step.{set_up_words};
ghost use Rattle.memory_tables.specs.Sizes.{setup_words};
ghost use Rattle.furnace.specs.Story.{furnace, story, blank, empty};
ghost use Rattle.furnace.specs.Watch.{watched, watch, watches, none};

use crate::note::Count;
use crate::page::Page;
use heap::slot::WIDTH;
use memory_tables::active::ACTIVE_WIDTH;
use memory_tables::frame::FRAME_WIDTH;
use memory_tables::layout;
use memory_tables::program::{FUNCTION_WIDTH, NUMBERS_WIDTH};
use memory_world::machine::{Machine, Told};
use model::call::Op;
use model::machine::Fuel;
use std::io;

// The depth, the words of the stack, the rows and the slots.
const DEPTH: usize = 8;

const STACK: usize = 40;

const ROWS: usize = 4;

const SLOTS: usize = 16;

// Where the line's functions stand in its set-up, and the handler of the last one.
const LINE: usize = NUMBERS_WIDTH;

const HEAT: usize = LINE + FUNCTION_WIDTH;

const HEAT_PARAMS: usize = HEAT + layout::PARAMS;

const SENSOR: usize = HEAT + FUNCTION_WIDTH;

const TRIM: usize = SENSOR + FUNCTION_WIDTH;

const SURVEY: usize = TRIM + FUNCTION_WIDTH;

const RECIPE: usize = SURVEY + FUNCTION_WIDTH;

const RECIPE_PARAMS: usize = RECIPE + layout::PARAMS;

const RECIPE_HANDLERS: usize = RECIPE + layout::HANDLERS;

const CLEANUP: usize = RECIPE + layout::FIRST_HANDLER;

const CLEANUP_END: usize = CLEANUP + layout::END;

const CLEANUP_TARGET: usize = CLEANUP + layout::TARGET;

const CLEANUP_CATCH: usize = CLEANUP + layout::CATCH;

// The words of the set-up, and of the notes.
const SETUP_WIDTH: usize = RECIPE + FUNCTION_WIDTH;

const NOTES_WIDTH: usize = (note::NOTES * note::NOTE_WIDTH) as usize;

// The set-up's words.
fn furnace() -> [u64; SETUP_WIDTH]
    ensures { result ≡ setup_words furnace }
{
    let mut given = [0u64; SETUP_WIDTH];
    given[layout::DEPTH] = DEPTH as u64;
    given[layout::STACK] = STACK as u64;
    given[layout::ROWS] = ROWS as u64;
    given[layout::SLOTS] = SLOTS as u64;
    given[layout::MEMORY] = 65536;
    given[layout::FRAME_COST] = 32;
    given[layout::CORO_COST] = 104;
    given[layout::OBJECT_COST] = 160;
    given[layout::INT_COST] = 56;
    given[layout::ERROR_COST] = 56;
    given[layout::ITER_COST] = 112;
    // no hook; six functions: their registers, parameters and handlers
    given[layout::FUNCTIONS] = 6;
    given[LINE] = 8;
    given[HEAT] = 6;
    given[HEAT_PARAMS] = 1;
    given[SENSOR] = 3;
    given[TRIM] = 3;
    given[SURVEY] = 4;
    given[RECIPE] = 4;
    given[RECIPE_PARAMS] = 1;
    given[RECIPE_HANDLERS] = 1;
    // its cleanup block: a signal at a pc below 100 goes on at 200, with its word in register 3
    given[CLEANUP_END] = 100;
    given[CLEANUP_TARGET] = 200;
    given[CLEANUP_CATCH] = 3;
    given
}

// What calls leave of the numbers and of the fuel, and the wakes counted.
#[derive(Clone, Copy)]
struct Played {
    machine: Machine,
    fuel: Fuel,
    count: Count,
}

// One call, with what is noted before it and told after it.
fn turn(
    page: &mut Page,
    stack: &mut [u64],
    frames: &mut [u64],
    chain: &mut [u64],
    slots: &mut [u64],
    saved_stack: &mut [u64],
    saved_frames: &mut [u64],
    ready: &mut [u64],
    finalize: &mut [u64],
    setup: &[u64],
    m: Machine,
    fuel: Fuel,
    op: Op,
    notes: &mut [u64],
    count: Count,
) -> Played
    requires { length notes.old ≡ 128 }
    ensures { watched (state (nine (of_mut stack) (of_mut frames) (of_mut chain) (of_mut slots) (of_mut saved_stack) (of_mut saved_frames) (of_mut ready) (of_mut finalize) (of_ref setup) at_exit) result.machine result.fuel) (at_exit (of_mut notes)) result.count
        ≡ watch (watched (state (nine (of_mut stack) (of_mut frames) (of_mut chain) (of_mut slots) (of_mut saved_stack) (of_mut saved_frames) (of_mut ready) (of_mut finalize) (of_ref setup) at_entry) m fuel) (at_entry (of_mut notes)) count) op }
{
    let was = note::before(stack, frames, chain, m, op, notes);
    let called = call::call(
        stack,
        frames,
        chain,
        slots,
        saved_stack,
        saved_frames,
        ready,
        finalize,
        setup,
        m,
        fuel,
        op,
    );
    let next = called.machine;
    let left = called.fuel;
    let answer = called.answer;
    let told = tell::after(
        page,
        stack,
        frames,
        chain,
        slots,
        saved_stack,
        saved_frames,
        ready,
        finalize,
        setup,
        next,
        left,
        op,
        answer,
        was,
        notes,
        count,
    );
    Played {
        machine: next,
        fuel: left,
        count: told,
    }
}

// The numbers and the fuel before a set-up, which does not read them.
fn blank() -> Machine
    ensures { result ≡ blank }
{
    Machine {
        height: 0,
        depth: 0,
        active: 0,
        count: 0,
        ready: 0,
        finalize: 0,
        finalizing: false,
        outcome: Told(0, 0, 0, 0),
        used: 0,
        seq: 0,
    }
}

fn empty() -> Fuel
    ensures { result ≡ empty }
{
    let bank = None;
    Fuel {
        fuel: 0,
        bank,
        ready: false,
    }
}

// All calls of the story.
fn play(
    page: &mut Page,
    stack: &mut [u64],
    frames: &mut [u64],
    chain: &mut [u64],
    slots: &mut [u64],
    saved_stack: &mut [u64],
    saved_frames: &mut [u64],
    ready: &mut [u64],
    finalize: &mut [u64],
    setup: &[u64],
    m: Machine,
    fuel: Fuel,
    notes: &mut [u64],
) -> Played
    requires { length notes.old ≡ 128 }
    ensures { watched (state (nine (of_mut stack) (of_mut frames) (of_mut chain) (of_mut slots) (of_mut saved_stack) (of_mut saved_frames) (of_mut ready) (of_mut finalize) (of_ref setup) at_exit) result.machine result.fuel) (at_exit (of_mut notes)) result.count
        ≡ watches (watched (state (nine (of_mut stack) (of_mut frames) (of_mut chain) (of_mut slots) (of_mut saved_stack) (of_mut saved_frames) (of_mut ready) (of_mut finalize) (of_ref setup) at_entry) m fuel) (at_entry (of_mut notes)) none) story }
{
    let mut k = m;
    let mut f = fuel;
    let mut count = Count { wakes: 0, equal: 0 };
    for i in 0..story::CALLS {
        let op = story::call(i);
        let did = turn(
            page,
            stack,
            frames,
            chain,
            slots,
            saved_stack,
            saved_frames,
            ready,
            finalize,
            setup,
            k,
            f,
            op,
            notes,
            count,
        );
        k = did.machine;
        f = did.fuel;
        count = did.count;
    }
    Played {
        machine: k,
        fuel: f,
        count,
    }
}

// The set-up, then the story.
fn line(
    page: &mut Page,
    stack: &mut [u64],
    frames: &mut [u64],
    chain: &mut [u64],
    slots: &mut [u64],
    saved_stack: &mut [u64],
    saved_frames: &mut [u64],
    ready: &mut [u64],
    finalize: &mut [u64],
    setup: &mut [u64],
    notes: &mut [u64],
    given: &[u64],
) -> Count
    requires { length notes.old ≡ 128 }
    ensures { result ≡ (watches (watched (set_up_words (state (nine (of_mut stack) (of_mut frames) (of_mut chain) (of_mut slots) (of_mut saved_stack) (of_mut saved_frames) (of_mut ready) (of_mut finalize) (of_mut setup) at_entry) blank empty) given.now).state (at_entry (of_mut notes)) none) story).count }
{
    let began = outer_call::set_up::set_up(
        stack,
        frames,
        chain,
        slots,
        saved_stack,
        saved_frames,
        ready,
        finalize,
        setup,
        blank(),
        empty(),
        given,
    );
    let m = began.machine;
    let fuel = began.fuel;
    let did = play(
        page,
        stack,
        frames,
        chain,
        slots,
        saved_stack,
        saved_frames,
        ready,
        finalize,
        setup,
        m,
        fuel,
        notes,
    );
    did.count
}

fn main(rt: HostRuntime) -> io::Result<()> {
    let given = furnace();
    let mut stack = [0u64; STACK];
    let mut frames = [0u64; DEPTH * FRAME_WIDTH];
    let mut chain = [0u64; DEPTH * ACTIVE_WIDTH];
    let mut slots = [0u64; SLOTS * WIDTH];
    let mut saved_stack = [0u64; ROWS * STACK];
    let mut saved_frames = [0u64; ROWS * DEPTH * FRAME_WIDTH];
    let mut ready = [0u64; SLOTS];
    let mut finalize = [0u64; SLOTS];
    let mut setup = [0u64; SETUP_WIDTH];
    let mut notes = [0u64; NOTES_WIDTH];
    let mut page = Page::new(rt.stdout());
    tell::heading(&mut page);
    let count = line(
        &mut page,
        &mut stack,
        &mut frames,
        &mut chain,
        &mut slots,
        &mut saved_stack,
        &mut saved_frames,
        &mut ready,
        &mut finalize,
        &mut setup,
        &mut notes,
        &given,
    );
    tell::end(&mut page, count);
    page.end()
}

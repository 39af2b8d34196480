// coro.rs: coro_enter. What it refuses is tested before anything is lent.
ghost use Rattle.std.specs.Prelude.{◌≡◌, ◌+◌, ◌^◌, ◌≤◌, ◌<◌};
ghost use Rattle.model.specs.Coro.{coro_enter};
ghost use Rattle.memory_world.specs.Lendings.{six, plain};
ghost use Rattle.memory_world.specs.Contract.{Ok, Met, if_sound, only, of_mut};
ghost use Rattle.coro_enter.specs.Enter.{refusal_of, entered_as, grown, MoveFits, Moves};

use heap::fault::Fault;
use heap::object::{CoroObj, CoroState};
use heap::value::Word;
use machine_state::called::Did;
use memory_tables::frame::FRAME_WIDTH;
use memory_world::machine::{Machine, Sizes};
use model::coro::Entered;
use model::machine::Driver;

// Whether a coroutine may be entered, or why not.
pub fn refusal(m: Machine, sizes: Sizes, c: CoroObj) -> Result<(), Fault>
    requires { (m.depth ≤ sizes.depth) × (m.height ≤ sizes.stack) }
    ensures { result ≡ refusal_of m.height m.depth sizes c }
{
    let s = c.state;
    if !s.is_resumable() {
        return Err(Fault::InvalidCoroState);
    }
    if c.frames == 0 {
        return Err(Fault::InvalidCoroState);
    }
    if ((sizes.depth - m.depth) as u64) < c.frames {
        return Err(Fault::StackOverflow);
    }
    if ((sizes.stack - m.height) as u64) < c.regs {
        return Err(Fault::StackOverflow);
    }
    Ok(())
}

// Its row's registers and frames on top of the machine's.
pub(crate) fn move_in(
    stack: &mut [u64],
    frames: &mut [u64],
    saved_stack: &mut [u64],
    saved_frames: &mut [u64],
    m: Machine,
    sizes: Sizes,
    c: CoroObj,
)
    requires { MoveFits stack.old frames.old saved_stack.old saved_frames.old m.height m.depth sizes c }
    ensures { Moves stack.old frames.old saved_stack.old saved_frames.old stack.new frames.new saved_stack.new saved_frames.new m.height m.depth sizes c }
{
    let at = (c.row as usize) * sizes.width;
    memory_tables::rows::enter_stack(stack, m.height, saved_stack, at, c.regs as usize);
    let from = (c.row as usize) * (sizes.depth * FRAME_WIDTH);
    memory_tables::rows::enter_frames(
        frames,
        m.depth,
        saved_frames,
        from,
        c.frames as usize,
        m.height as u64,
    );
}

// What an entry answers.
pub(crate) fn entered_as(c: CoroObj) -> Result<Entered, Fault>
    ensures { result ≡ entered_as c }
{
    let s = c.state;
    match s {
        CoroState::Created => Ok(Entered::Fresh),
        CoroState::Running => Ok(Entered::Suspended(c.waiting)),
        CoroState::Yielded => Ok(Entered::Suspended(c.waiting)),
        CoroState::Awaiting => Ok(Entered::Suspended(c.waiting)),
        CoroState::Returned => Ok(Entered::Suspended(c.waiting)),
        CoroState::Failed => Ok(Entered::Suspended(c.waiting)),
    }
}

fn entered(m: Machine, c: CoroObj) -> Machine
    requires { (m.height + c.regs < 2 ^ 64) × (m.depth + c.frames < 2 ^ 64) × (m.active + 1 < 2 ^ 64) }
    ensures { result ≡ grown m c }
{
    let mut n = m;
    n.height = m.height + (c.regs as usize);
    n.depth = m.depth + (c.frames as usize);
    n.active = m.active + 1;
    n
}

// coro.rs: coro_enter.
pub fn coro_enter(
    stack: &mut [u64],
    frames: &mut [u64],
    chain: &mut [u64],
    slots: &mut [u64],
    saved_stack: &mut [u64],
    saved_frames: &mut [u64],
    m: Machine,
    sizes: Sizes,
    v: Word,
    d: Driver,
) -> Did<Result<Entered, Fault>>
    requires { Ok sizes (six stack.old frames.old chain.old slots.old saved_stack.old saved_frames.old plain) (only m) }
    ensures { Met if_sound sizes (coro_enter v.0 d) (six (of_mut stack) (of_mut frames) (of_mut chain) (of_mut slots) (of_mut saved_stack) (of_mut saved_frames)) (only m) (only result.machine) result.answer }
{
    match heap::heap::coro_place(slots, m.count, v) {
        Err(f) => Did {
            machine: m,
            answer: Err(f),
        },
        Ok(i) => {
            let c = heap::slot::coro_at(slots, i);
            match refusal(m, sizes, c) {
                Err(fault) => Did {
                    machine: m,
                    answer: Err(fault),
                },
                Ok(()) => {
                    move_in(stack, frames, saved_stack, saved_frames, m, sizes, c);
                    memory_tables::chain::push_active(chain, m.active, v.0, m.depth as u64, d);
                    heap::slot::put_entered(slots, i);
                    Did {
                        machine: entered(m, c),
                        answer: entered_as(c),
                    }
                }
            }
        }
    }
}

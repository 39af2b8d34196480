// 01: "a look at the top frame hands back its registers as part of the lent words; without a frame, or on 11, an empty part"
ghost use Rattle.std.specs.Prelude.{◌≡◌, true};
ghost use Rattle.memory_world.specs.Contract.{at_entry, of_ref};
ghost use Rattle.machine_added.specs.Look.{LookFits};
ghost use Rattle.memory_step.specs.Step.{is_sound, looked};
ghost use Rattle.outer_call.specs.State.{nine, state};
ghost use Rattle.outer_call.specs.Look.{Placed};
ghost use Rattle.memory_world.specs.Lendings.{plain};

use check_machine::whole::sound_words;
use machine_added::look::Span;
use memory_world::machine::Machine;
use model::machine::Fuel;

// Where that part begins and ends.
fn place(ok: bool, frames: &[u64], m: Machine) -> Span
    requires { ok ≡ true → LookFits frames.now m }
    ensures { Placed ok frames.now m result }
{
    if !ok {
        return Span { start: 0, end: 0 };
    }
    machine_added::look::look(frames, m)
}

// .. on words of which it is known whether they are sound. The contract says which words the part holds. It cannot say where in the caller's
// slice the part lies; the type says that it lies there, and bvm_look gives both places.
pub fn seen<'a>(
    ok: bool,
    stack: &'a [u64],
    frames: &[u64],
    chain: &[u64],
    slots: &[u64],
    saved_stack: &[u64],
    saved_frames: &[u64],
    ready: &[u64],
    finalize: &[u64],
    setup: &[u64],
    m: Machine,
    fuel: Fuel,
) -> &'a [u64]
    requires { ok ≡ is_sound (state (nine stack.now frames.now chain.now slots.now saved_stack.now saved_frames.now ready.now finalize.now setup.now plain) m fuel) }
    ensures { result.now ≡ looked (state (nine (of_ref stack) (of_ref frames) (of_ref chain) (of_ref slots) (of_ref saved_stack) (of_ref saved_frames) (of_ref ready) (of_ref finalize) (of_ref setup) at_entry) m fuel) }
{
    let s = place(ok, frames, m);
    let start = s.start;
    let end = s.end;
    &stack[start..end]
}

// The part of the caller's stack from the top frame's base to the stack's end.
pub fn look<'a>(
    stack: &'a [u64],
    frames: &[u64],
    chain: &[u64],
    slots: &[u64],
    saved_stack: &[u64],
    saved_frames: &[u64],
    ready: &[u64],
    finalize: &[u64],
    setup: &[u64],
    m: Machine,
    fuel: Fuel,
) -> &'a [u64]
    ensures { result.now ≡ looked (state (nine (of_ref stack) (of_ref frames) (of_ref chain) (of_ref slots) (of_ref saved_stack) (of_ref saved_frames) (of_ref ready) (of_ref finalize) (of_ref setup) at_entry) m fuel) }
{
    let ok = sound_words(
        stack,
        frames,
        chain,
        slots,
        saved_stack,
        saved_frames,
        ready,
        finalize,
        setup,
        m,
        fuel,
    );
    seen(
        ok,
        stack,
        frames,
        chain,
        slots,
        saved_stack,
        saved_frames,
        ready,
        finalize,
        setup,
        m,
        fuel,
    )
}

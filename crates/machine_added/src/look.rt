// 01: "Look: a look at the top frame hands back its registers as part of the lent words; without a frame .. an empty part."
ghost use Rattle.machine_added.specs.Look.{LookFits, Sees};

use memory_world::machine::Machine;

// The part of the stack from `start` to `end`.
#[derive(Clone, Copy)]
pub struct Span {
    pub start: usize,
    pub end: usize,
}

pub fn look(frames: &[u64], m: Machine) -> Span
    requires { LookFits frames.now m }
    ensures { Sees frames.now m result }
{
    if m.depth == 0 {
        return Span { start: 0, end: 0 };
    }
    let start = memory_tables::frame::base_at(frames, m.depth - 1);
    Span {
        start,
        end: m.height,
    }
}

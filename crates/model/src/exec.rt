// exec.rs: what an instruction leads to.

use heap::fault::Fault;

#[derive(Clone, Copy)]
pub enum Step {
    // go on with the next instruction
    Next,
    // the top frame changed
    Frame,
    // the fault is raised at the instruction's own pc
    Fault(Fault),
    // the frames changed, and the fault is raised in the new top frame, at the pc that it holds
    Unwind(Fault),
}

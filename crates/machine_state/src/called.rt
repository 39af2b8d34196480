// What a function leaves of the machine's numbers, and answers.
use memory_world::machine::Machine;
use model::machine::Fuel;

#[derive(Clone, Copy)]
pub struct Did<A> {
    pub machine: Machine,
    pub answer: A,
}

// .. and what it leaves of the fuel.
#[derive(Clone, Copy)]
pub struct Called<A> {
    pub machine: Machine,
    pub fuel: Fuel,
    pub answer: A,
}

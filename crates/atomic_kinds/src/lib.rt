//! Four classes of atomic models: queue, generator, cpu and counter.
//!
//! - `QueueModel`, `GeneratorModel`, `CpuModel` and `CounterModel` each implement the trait
//!   `AtomicModel` of `atomic_face`, in a file of its own; `new` makes one as no parameters settle
//!   it. `parameters` reads what their keys say.
//! - Definitions: what they compute is in `atomic_face/specs` (`Queue.antt`, `Generator.antt`,
//!   `Cpu.antt`, `Counter.antt`); the specs here say what the fields of each type stand for.
#![tactic(auto)]

mod counter;
mod cpu;
mod generator;
mod parameters;
mod queue;

pub use counter::CounterModel;
pub use cpu::CpuModel;
pub use generator::GeneratorModel;
pub use queue::QueueModel;

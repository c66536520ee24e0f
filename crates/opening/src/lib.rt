#![tactic(auto)]
// A book driven by an order tape: one command at a place, or all of them to the tape's end.
mod commands;
mod fault;
mod runs;
mod steps;

pub use commands::advance;
pub use fault::{At, StepFault};
pub use runs::{Counts, Report, run};
pub use steps::step;

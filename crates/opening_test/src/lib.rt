//! Tests of steps and runs: a book driven by a tape whose bytes are spelled out by hand.
#![tactic(auto)]

#[cfg(test)]
mod runs;
#[cfg(test)]
mod steps;
#[cfg(test)]
mod tapes;

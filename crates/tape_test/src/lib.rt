#![tactic(auto)]
// Tests of the order tape at its edges. Every record is spelled out in bytes by hand.
#[cfg(test)]
mod edges;
#[cfg(test)]
mod records;

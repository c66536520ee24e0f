//! Tests of the tick rules: worked examples, real tables and every refusal.
#![tactic(auto)]

#[cfg(test)]
mod asked;
#[cfg(test)]
mod exchange;
#[cfg(test)]
mod refused;
#[cfg(test)]
mod tables;

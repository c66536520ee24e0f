#![tactic(auto)]
// What the price of an auction is: demand and supply, the ladder, the three steps, and the pass that finds their answer.
mod meaning;
mod pass;
mod rung;
mod span;
mod survey;
mod tally;
mod totals;

pub use meaning::{curves_stand, flat_stands, ladder_stands, pricing_stands, walk_stands};
pub use pass::price;
pub use rung::{Indication, Rung};

#![tactic(auto)]
// What the whole engine speaks of: sides, kinds, orders, their priority, and the limits.
pub mod limits;
mod order;
mod priority;

pub use order::{Kind, Order, Side, Terms};
pub use priority::Priority;

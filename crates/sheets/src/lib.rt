#![tactic(auto)]
// Order sheets: one interface, and two stores of orders over lent rows with the same meaning.
mod arrival;
mod lists;
mod priority;
mod scans;
mod sheet;

pub use arrival::ArrivalSheet;
pub use priority::PrioritySheet;
pub use sheet::{OrderSheet, SideFull};

#![tactic(auto)]
// Entries in lent rows: as they are put, or in the order of a ranking.
mod lent;
mod list;
mod ranking;
pub mod rows;

pub use lent::LentList;
pub use list::OrderedList;
pub use ranking::Ranking;

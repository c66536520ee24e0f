#![tactic(auto)]
// What is asked of a book, what it answers, why it refuses, and the rules of the book as a machine.
mod call;
mod meaning;
mod refusal;

pub use call::{Answer, Call, Phase};
pub use meaning::calls_stand;
pub use refusal::{PriceFault, ReferenceFault, Refusal};

#![tactic(auto)]
// The book of one series: it takes calls, keeps its orders on a sheet, and refuses what the rules refuse.
mod book;
mod checks;
mod clear;

pub use book::Book;

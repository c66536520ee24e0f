//! Tests of the book's calls: one body over both order sheets and three tick rules.
#![tactic(auto)]

#[cfg(test)]
mod calling;
#[cfg(test)]
mod entering;
#[cfg(test)]
mod first;
#[cfg(test)]
mod full;
#[cfg(test)]
mod over;
#[cfg(test)]
mod places;
#[cfg(test)]
mod spent;
#[cfg(test)]
mod starting;

//! A value behind a turn, beside a word that counts its history.
#![tactic(auto)]

mod cell;
mod closing;
mod history;
mod pass;
mod rest;
mod rule;
mod sleepers;
#[cfg(test)]
mod tests;
mod turn;
mod view;

pub use cell::Cell;
pub use history::HasHistory;
pub use pass::{Pass, PassOf, Passes};
pub use rest::Rest;
pub use turn::Turn;
pub use view::{Maker, Stage, View};

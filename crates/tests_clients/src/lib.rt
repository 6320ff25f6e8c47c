//! Tests of what clients of a store do and no command asks for: what they tell one another, trims by a snapshot of another column,
//! appends that may only stand next, trees of names, and transactions that are played by one colour.
#![tactic(auto)]

#[cfg(test)]
mod tests;

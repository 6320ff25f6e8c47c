//! Tests of which rule a report is the first to break.
#![tactic(auto)]

#[cfg(test)]
mod tests;

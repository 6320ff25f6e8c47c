//! Tests of what no script reaches: the ends of ranges, boards, streams, texts and forms, trees and parts, and calls of a column,
//! a region and a world that no command makes.
#![tactic(auto)]

#[cfg(test)]
mod tests;

//! Which rule of a lawful run a report is the first to break.
#![tactic(auto)]

mod hiding;
mod judged;
mod judgement;
mod judging;
mod judging_laws;

pub use judged::{JudgeFault, Judged};
pub use judgement::judge;
pub use judging::least_of_nine;
pub use judging_laws::{judged_is_lawful, rules_are_asked, rules_stand};

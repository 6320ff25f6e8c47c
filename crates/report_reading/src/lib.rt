//! A report that is read from its text.
#![tactic(auto)]

mod answers;
mod columns;
mod fault;
mod laws;
mod lists;
mod pieces;
mod reads;
mod replies;
mod report;
mod rows;
mod setting;

pub use fault::ReportFault;
pub use laws::one_report;
pub use report::read_report;

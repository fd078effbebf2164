//! Simulating graphs: what a simulation reports.
//!
//! - `Report`: what came out at the Exits of a graph, how many firings there were, and how it ended.
//! - `report_text`: a report as it is printed.
#![tactic(auto)]

mod report;

pub use report::{Finish, Report, report_text};

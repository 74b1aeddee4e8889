//! The workers of all procedures of a program, a thread for each, and what they found, gathered into a report.
#![tactic(auto)]

mod crew;
mod finding;
mod gathering;
mod kinds;
mod lane;
mod one_thread;
mod report;

pub use finding::Finding;
pub use gathering::gather;
pub use jobs::{Always, Hire};
pub use kinds::{CrewBoard, CrewSet, WorkBoard, WorkSet};
pub use one_thread::tabulate_rounds;
pub use report::{Answer, Report, check_rounds, check_rounds_tried, check_rounds_with};

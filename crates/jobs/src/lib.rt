//! Jobs, each in a thread of its own. A job for which there is no thread is declined.
#![tactic(auto)]

mod hire;
mod jobs;
mod no_thread;
mod slot;

pub use hire::{Always, Hire};
pub use jobs::{Job, JobResult, run_all};

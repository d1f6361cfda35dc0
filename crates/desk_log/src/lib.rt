// The night log as the desk's lines: the steps `logw` and `logr`, and how a log ends, for the desk and its replay.
#![tactic(auto)]

mod writing; // writing.rt: the step logw
mod reading; // reading.rt: the step logr

pub use reading::{put_bad, put_cut, read};
pub use writing::write;

// The readings of paper 01 that go through the watch, and those of 02's requests, for the program readings alone:
// steps on a table by value, each printed with its answer, and records.
#![tactic(auto)]

pub mod older; // older.rt: the readings of posts of the older interface
pub mod posts; // posts.rt: the readings
mod steps; // steps.rt: steps on a table, with their answers

// What the safety controller and its host tell each other of charging, ChargeControl1 and ChargeState1 of document 004: each of its raw numbers, in the table's
// order, and the raw numbers of each. For the crates that go over all kinds.
#![tactic(auto)]

pub mod build; // build.rt: a message of its raw numbers
pub mod take; // take.rt: the raw numbers of a message

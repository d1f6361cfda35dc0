// The four probes of the safety controller, PT1000State of document 004: the message of its raw numbers, in the table's order, and the raw numbers of the
// message. For the crates that go over all kinds.
#![tactic(auto)]

pub mod build; // build.rt: a message of its raw numbers
pub mod take; // take.rt: the raw numbers of a message

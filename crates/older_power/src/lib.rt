// The messages of document 001 from Power_Modules_Limits to Charging_Loop that 000 has not alike: each of its raw numbers, in the table's order, and
// the raw numbers of each. For the crates that go over all kinds.
#![tactic(auto)]

pub mod build; // build.rt: a message of its raw numbers
pub mod take; // take.rt: the raw numbers of a message

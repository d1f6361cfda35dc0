// The messages of document 000 about the vehicle, EV_Information_Battery to EV_Information_Energy, and OCPP_Control: each of its raw numbers, in the table's
// order, and the raw numbers of each. For the crates that go over all kinds.
#![tactic(auto)]

pub mod build; // build.rt: a message of its raw numbers
pub mod take; // take.rt: the raw numbers of a message

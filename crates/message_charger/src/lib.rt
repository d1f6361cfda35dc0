// The charger's messages, document 000: the raw numbers of each, in the table's order, and of its raw numbers each message of which no rule asks a field (the
// others are in message_parts). 001 lays Power_Modules_Status, Charge_Status_Change, Emergency_Stop, Charge_Session_Finished, Advantics_Controller_Status and
// EV_ID_CCS_Part2_DIN out alike. For the crates that go over all kinds, of either document.
// Kept (2): each message has two functions, of its raw numbers and to them. A trait of both is longer (message_safety/build.rt says by how much), and its impls
// would stand in the crate of the types.
#![tactic(auto)]

pub mod build; // build.rt: a message of its raw numbers
pub mod take; // take.rt: the raw numbers of a message

// The crates among these are passed on to those above, which name them through this one.
pub use message_parts;

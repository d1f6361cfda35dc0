// The messages ADM_CS_SPCC_Inputs, CCS_Extra_Information and MCS_Extra_Information, which documents 000 and 001 lay out alike: each of its raw numbers, in the
// table's order, and the raw numbers of each. For the crates that go over all kinds, of the one document or of the other.
#![tactic(auto)]

pub mod build; // build.rt: a message of its raw numbers
pub mod take; // take.rt: the raw numbers of a message

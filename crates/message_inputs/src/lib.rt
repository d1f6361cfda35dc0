// The messages ADM_CO_CUI1_Inputs and ADM_CS_SECC_Inputs, which documents 000 and 001 lay out alike: each of its raw numbers, in the table's order, and the raw
// numbers of each. For the crates that go over all kinds, of the one document or of the other.
#![tactic(auto)]

pub mod build; // build.rt: a message of its raw numbers
pub mod take; // take.rt: the raw numbers of a message

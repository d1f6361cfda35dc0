// Messages in words, for the program readings alone: what a frame is read to, with the label names of 000,
// and whether the codec's round trips hold of frames of every kind, found by running them.
#![tactic(auto)]

mod inputs; // inputs.rt: the messages that 001 has alike
mod labels; // labels.rt: the names of labels and of kinds
pub mod message; // message.rt: a message's fields in words
pub mod show; // show.rt: numbers, bytes and refusals as text
mod tenths; // tenths.rt: tenths with their point, and flags
pub mod trips; // trips.rt: a frame read and written, a message written and read
mod vehicle; // vehicle.rt: the messages about the vehicle

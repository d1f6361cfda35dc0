// A post's set-up in the desk's notation, read: for every program that sets posts up from a line. Every public function takes any input.
#![tactic(auto)]

pub mod setup; // setup.rt: a post's set-up of a line

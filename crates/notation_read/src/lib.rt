// Lines in the desk's notation, read: for every program that takes them. The fields of a line, and a frame's and a tick's line. Every public function takes
// any input.
#![tactic(auto)]

pub mod fields; // fields.rt: fields of a line that stand together
pub mod heard; // heard.rt: a frame and a tick of a line
pub mod script; // script.rt: lines that say nothing

// The steps on a frame by itself, `read`, `change` and `write`, by the pages of an interface, for the desk alone.
#![tactic(auto)]

mod reading; // reading.rt: the step read
mod changing; // changing.rt: the step change
mod writing; // writing.rt: the step write

pub use changing::change;
pub use reading::read;
pub use writing::write;

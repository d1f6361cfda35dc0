// How a log ends, in the desk's notation: for every program that goes through a log. Every public function takes any input.
pub mod ending; // ending.rt: how a log ends, as text

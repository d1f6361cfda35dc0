// Numbers as text, read: for whatever takes a number from a line. Every public function takes any input; `specs/` says what each answers.
#![tactic(auto)]

mod numbers; // numbers.rt: numbers as text

pub use numbers::{digit, signed, whole};

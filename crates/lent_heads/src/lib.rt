// An entry that copies one head out of a lent table, has it stepped by value, and stores the head and one slot back, or the count alone: that this is the
// table's step. Laws alone, without a function, for the proofs of `lent_frame` and `lent_tick`.

// The crates among these are passed on to those above, which name them through this one.
pub use lent_step;
pub use lent_step::lent_words;

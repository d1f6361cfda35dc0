// Any requests through the entries in place: what they answer and leave, step by step and over a whole run, is what `watch` does by value,
// so that demand 3 is said of the lent table too. Definitions and laws alone, without a function, for a reader who has `watch_rules` beside it.

// The crates among these are passed on to those above, which name them through this one.
pub use lent_step::lent_words;

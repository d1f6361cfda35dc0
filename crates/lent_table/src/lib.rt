// The words of the lent table's entries, by one name, for the crates that are lent the whole of a table. Nothing of its own stands here.

// The crates among these are passed on to those above, which name them through this one.
pub use lent_words;

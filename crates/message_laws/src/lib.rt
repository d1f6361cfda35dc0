// What holds of messages of any type over the table of the pages: a label or a field at its signal, a kind's numbers there and back, and reading and writing of
// them all. Laws, and no function, for the crates that prove the ways of their messages.

// The crate is passed on to those above, which name it through this one.
pub use page_change::page_write;

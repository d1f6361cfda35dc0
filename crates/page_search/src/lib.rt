// The searches of the table: a message by its identifier, on one interface or on whichever has it, and a signal's row by its kind and start. For the crates
// that read, write or change by the table. Every public function takes any input.
#![tactic(auto)]

mod by_id; // by_id.rt: the search by identifier
mod by_kind; // by_kind.rt: the searches by kind and start

// The crates among these are passed on to those above, which name them through this one.
pub use by_id::{message_on, with_id};
pub use by_kind::{first_of_kind, signal_at};
pub use page_rows;
pub use page_rows::page_table;

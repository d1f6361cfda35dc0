// A batch in one call (02, Req 07): definitions and laws, and no function. Read with 02 beside it, in this order:
//   specs/Batch.antt      when a batch is refused whole, and what an accepted one leaves: the table, and the answers
//   specs/Runs.antt       requests with batches among them, and the same without
// proofs/Laws.antt has each refusal in its case and what stays; proofs/Flat.antt makes a run with batches a run without, so that demand 3 holds of it;
// proofs/Counted.antt counts what such a run refused (02, Req 08); proofs/Night.antt has all on a night. `batch` and `lent_batch` answer by it.

// The crates among these are passed on to those above, which name them through this one.
pub use lent_runs::lent_words;

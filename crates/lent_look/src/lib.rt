// What entries share that look a post up in a lent table: the post where it is set up, by the function of the by-value operations, and the cases of a look-up
// (proofs/Asked.antt). The table is only read, and not copied. For `lent_numbers`, `lent_counts`, `lent_latest` and `lent_session`.
pub use watch_places::post_at;

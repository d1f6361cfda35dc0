// The lent table under one name, for callers in Rattle: each operation changes a table in place, as it does for C,
// and leaves exactly what the by-value operation of `watch`, or for a batch of `batch`, gives.
// An answer is one word: the findings, or 65,536 plus the refusal's number plus 256 times the start bit that 5 carries.
// What the C interface has beside them stands in `lent_numbers`, `lent_counts` and `lent_latest` (the table is only read) and in `plain_frames`,
// `plain_log` and `plain_screen` (no table).
pub use lent_batch::lend_batch;
pub use lent_frame::lend_frame;
pub use lent_settings::{lend_release, lend_set_up, lend_start};
pub use lent_tick::lend_tick;

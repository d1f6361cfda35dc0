// A batch in place (02, Req 07): the lent table is copied out and back once for the whole batch, and answer, table and answers are exactly what
// `batch::feed_batch` gives. It stands alone, since the compiler builds the step of a record into it only where that has one caller. For C, and through
// `gateway` for Rattle.
// Kept (2): the entry of each step stands in a crate of its own, as said above, and beside it the same entry by value. Of a frame and a tick that was measured:
// a frame took 54 ns instead of 20 where both entries were in one module (docs/DECISIONS.md).
#![tactic(auto)]

ghost use Rattle.std.specs.Prelude.{◌≡◌, length};
ghost use Rattle.batch.specs.batch_rules.specs.Batch.{batch_of, answers_after};

use batch::feed_batch;
use lent_table::lent_words::Lent;
use watch_rules::{Stepped, Table};

#[unsafe(no_mangle)]
pub extern "C" fn rokemaipu_batch(t: &mut Table, records: &[u8], answers: &mut [u32]) -> u32
    ensures { (result ≡ (batch_of t.old records.now (length answers.old)).answer)
        × (t.new ≡ (batch_of t.old records.now (length answers.old)).table)
        × (answers.new ≡ answers_after t.old records.now answers.old) }
{
    let r = feed_batch(*t, records, answers);
    *t = r.table;
    r.answer
}

// By value over the entry, for callers in Rattle, through `gateway`: they make no reference to a table themselves.
pub fn lend_batch(mut t: Table, records: &[u8], answers: &mut [u32]) -> Lent
    ensures { (result ≡ batch_of t records.now (length answers.old))
        × (answers.new ≡ answers_after t records.now answers.old) }
{
    let answer = rokemaipu_batch(&mut t, records, answers);
    Stepped { table: t, answer }
}

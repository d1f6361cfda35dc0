// A batch in one call (02, Req 07), by value: the bytes are judged in a first pass, and then each record is fed in order. The heads and the latest
// frames of the posts stand in two local arrays meanwhile, and the count of what was refused beside them, so that a record stores one head and one
// slot and copies no table. For `lent_batch`, and for callers in Rattle.
// Kept (5): the C interface hands table, records and answers in one by one, and `feed_batch` answers as its entry does.
// Kept (6): no heap, and a table holds its posts in an array of as many as 02 names.
#![tactic(auto)]

ghost use Rattle.std.specs.Prelude.{◌≡◌, map, ◌≤◌, ◌+◌, length, MatchResult};
ghost use Rattle.std.proofs.Math.Option.{none, some};
ghost use Rattle.log_records.specs.Reading.{rec_of, log_of, records_in};
ghost use Rattle.batch_rules.specs.Batch.{most_bytes, why_batch, table_after, answers_by, batch_of, answers_after};
ghost use Rattle.batch.specs.Parts.{arrival_in, heard_by, joined};

use batch_rules::lent_words::{Lent, answer_word};
use log_read::{Ending, record_at, scan_log};
use log_records::{Entry, Found};
use plain_words::refusal_word;
use refusals::Refusal;
use rule_limits::PlainLimits;
use rules::{Head, PLACES, Post, Slot};
use std::array::from_fn;
use watch_hear::watch_places::indexed_place;
use watch_hear::{arrival_for, hear, refused_after};
use watch_rules::{Arrival, CHANNELS, Heard, POSTS, Stepped, Table};

// 02: "up to 4,096 bytes of log records".
pub const MOST: usize = 4096;

fn heads_of(t: Table) -> [Head; POSTS]
    ensures { result ≡ map (λ p. p.head) t.posts }
{
    from_fn(|i| t.posts[i].head)
}

// Kept (3): by `from_fn` the proof did not close: `search` finds nothing of what the closure hands out where that is an array of structs. By `map` the
// table would be copied once more, since an array's `map` takes it whole. By `latest.iter_mut().zip(&t.posts)` it is as fast where posts are set up (0.98 to
// 1.02 times), and a proof is not written: its invariant is over the borrows that were handed out (`yielded`).
fn latest_of(t: Table) -> [[Slot; PLACES]; POSTS]
    ensures { result ≡ map (λ p. p.latest) t.posts }
{
    let mut latest = [t.posts[0].latest; POSTS];
    for i in 0..POSTS {
        latest[i] = t.posts[i].latest;
    }
    latest
}

// Kept (3): by `from_fn` it is proved, and the posts are copied once more, from the array that it makes into the table.
fn table_of(
    heads: [Head; POSTS],
    latest: [[Slot; PLACES]; POSTS],
    index: [u32; CHANNELS],
    refused: u64,
) -> Table
    ensures { result ≡ record { posts = joined heads latest; index = index; refused = refused } }
{
    let first = Post {
        head: heads[0],
        latest: latest[0],
    };
    let mut posts = [first; POSTS];
    for i in 0..POSTS {
        posts[i] = Post {
            head: heads[i],
            latest: latest[i],
        };
    }
    Table {
        posts,
        index,
        refused,
    }
}

// What the record of an entry of the log is to a post with these limits.
fn arrival_of(limits: PlainLimits, log: &[u8], e: Entry) -> Arrival
    requires { e.start + e.length ≤ length log.now }
    ensures { result ≡ arrival_in limits (rec_of log.now e) }
{
    if e.tick {
        return Arrival::Tick;
    }
    arrival_for(limits, e.id, e.extended, &log[e.start..e.start + e.length])
}

// Each record in order, where there is a place for each one's answer. A frame is read before its post's head is copied out, so that no head is kept on the
// stack meanwhile: of `q` the compiler loads the limits alone. One call of `hear` serves frames and ticks: of two the compiler builds neither in.
// Kept (3): tried over `log_read::Records`, `for e in Records::new(log)` with the place of the answer beside it: it is proved, and a batch of 361 records
// is fed 5 to 8 in a hundred more slowly.
fn feed_all(t: Table, log: &[u8], answers: &mut [u32]) -> Table
    requires { length (records_in (log_of log.now)) ≤ length answers.old }
    ensures { (result ≡ table_after t (records_in (log_of log.now)))
        × (answers.new ≡ answers_by none t (records_in (log_of log.now)) answers.old) }
{
    let mut heads = heads_of(t);
    let mut latest = latest_of(t);
    let index = t.index;
    let mut refused = t.refused;
    let mut at: usize = 0;
    let mut n: usize = 0;
    loop {
        let Found::Record(e) = record_at(log, at) else {
            return table_of(heads, latest, index, refused);
        };
        let channel = e.channel;
        let i = indexed_place(&index, channel);
        let q = heads[i];
        let limits = q.limits;
        let a = arrival_of(limits, log, e);
        let h = heads[i];
        let time = e.time;
        let r = hear(h, channel, time, a);
        let g = r.head;
        let slot = r.slot;
        let k = r.at;
        let answer = r.answer;
        heads[i] = g;
        refused = refused_after(refused, answer);
        answers[n] = answer_word(answer);
        at = e.next;
        n += 1;
        // Kept (6): as in lent_frame: of a slice that `get_mut` lent a proof knows no element.
        if k < PLACES {
            latest[i][k] = slot;
        }
    }
}

// The first pass: how many records the bytes have, or why the batch is refused whole, judged in 02's order.
fn count_of(records: &[u8], places: usize) -> Result<usize, Refusal>
    ensures { MatchResult result
        (λ n. (why_batch records.now places ≡ none) × (n ≡ length (records_in (log_of records.now))) × (n ≤ places) × (n ≤ most_bytes))
        (λ w. why_batch records.now places ≡ some w) }
{
    if MOST < records.len() {
        return Err(Refusal::BatchBytes);
    }
    let scan = scan_log(records);
    let Ending::Clean = scan.ending else {
        return Err(Refusal::BatchRecord);
    };
    if places < scan.records {
        return Err(Refusal::BatchAnswers);
    }
    Ok(scan.records)
}

// Accepted, the answer is the number of records; refused, 65,536 plus 22, 23 or 24, and neither table nor answers change, nor is anything counted.
// Kept (1): `batch_of` and the laws of batch_rules tell this answer as the word that the entry gives, as they do of each step's.
pub fn feed_batch(t: Table, records: &[u8], answers: &mut [u32]) -> Lent
    ensures { (result ≡ batch_of t records.now (length answers.old))
        × (answers.new ≡ answers_after t records.now answers.old) }
{
    match count_of(records, answers.len()) {
        Ok(count) => {
            let table = feed_all(t, records, answers);
            Stepped {
                table,
                answer: count as u32,
            }
        }
        Err(w) => Stepped {
            table: t,
            answer: refusal_word(w),
        },
    }
}

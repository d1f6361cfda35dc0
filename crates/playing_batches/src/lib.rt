// A replay's records by the batch (02, Req 05 and 07): up to 4,096 bytes of whole log records are fed in one call, and their lines stand one after the other in
// a lent buffer. For every program that plays a long log. The public function takes any input.
#![tactic(auto)]

ghost use Rattle.std.specs.Prelude.{◌≡◌, ◌≤◌, length};
ghost use Rattle.log_records.specs.Reading.{log_of, records_in};
ghost use Rattle.watch_rules.specs.Table.{post_count};
ghost use Rattle.text_pen.specs.Pens.{Wrote};
ghost use Rattle.batch.specs.batch_rules.specs.Batch.{why_batch};
ghost use Rattle.playing_batches.specs.Batched.{unfed, room_for, why_of, batched_by, answers_by, lines_by, batched_of, answers_of, lines_of};
ghost use Rattle.playing_batches.specs.Words.{word_lines};

use batch::feed_batch;
use log_read::Records;
use playing_answers::put_line;
use playing_nights::{Course, Replay, Replayed};
use refusals::{Refusal, refusal_number};
use text_pen::Sheet;
use watch_places::place;
use watch_rules::Table;

// So many records, whose lines have so many bytes.
#[derive(Clone, Copy, Default)]
pub struct Lines {
    pub records: u32,
    pub bytes: usize,
}

// Why there are no lines, and nothing was fed: the refusal of the set-up that ended the replay; or the number of the refusal, 8 or the batch's own.
// Kept (1): the error of a `Result`; its second is a number, as the batch's answer word has it, since no function gives the refusal of a number.
#[derive(Clone, Copy)]
pub enum Unwritten {
    SetUp(Refusal),
    Refused(u32),
}

// A replay after a batch, and its lines.
pub type Batched = Replayed<Result<Lines, Unwritten>>;

// The lines of records whose answers are these words. A record changes no post's channel, so that its post is found in the table before the batch.
fn put_lines(t: Table, count: u64, log: &[u8], words: &[u32], sheet: &mut Sheet)
    requires { length (records_in (log_of log.now)) ≤ length words.now }
    ensures { Wrote sheet.old (word_lines t.posts count (records_in (log_of log.now)) words.now) sheet.new × (length t.posts ≡ post_count) }
{
    let mut k = count;
    for (&word, e) in words.iter().zip(Records::new(log)) {
        let post = place(t, e.channel) as u32;
        k = k.wrapping_add(1);
        put_line(sheet, k, post, word);
    }
}

// An answer where nothing was fed, which leaves the replay as it was.
fn unfed(r: Replay, answer: Result<Lines, Unwritten>) -> Batched
    ensures { result ≡ unfed r answer }
{
    Replayed { replay: r, answer }
}

// Kept (1): `feed_batch` answers by a word, the number of records or the refusal's.
fn fed(r: Replay, records: &[u8], answers: &mut [u32], out: &mut [u8]) -> Batched
    requires { room_for records.now ≤ length out.old }
    ensures { (result ≡ batched_by (why_of (why_batch records.now (length answers.old))) r (records_in (log_of records.now)))
        × (answers.new ≡ answers_by (why_of (why_batch records.now (length answers.old))) r (records_in (log_of records.now)) answers.old)
        × (out.new ≡ lines_by (why_of (why_batch records.now (length answers.old))) r (records_in (log_of records.now)) out.old) }
{
    let f = feed_batch(r.table, records, answers);
    match plain_words::answer_in(f.answer) {
        Err(w) => unfed(r, Err(Unwritten::Refused(w.number))),
        Ok(0) => unfed(r, Ok(Lines::default())),
        Ok(taken) => {
            let mut sheet = Sheet::new(out);
            put_lines(r.table, r.count, records, answers, &mut sheet);
            Replayed {
                replay: Replay {
                    table: f.table,
                    count: r.count.wrapping_add(u64::from(taken)),
                    course: Course::Records,
                },
                answer: Ok(Lines {
                    records: taken,
                    bytes: sheet.pen.at,
                }),
            }
        }
    }
}

// 8 first, then a set-up that ended the replay, then 22, 23 and 24. Every answer but lines leaves replay, answers and buffer as they were.
pub fn write_batch(r: Replay, records: &[u8], answers: &mut [u32], out: &mut [u8]) -> Batched
    ensures { (result ≡ batched_of r records.now (length answers.old) (length out.old))
        × (answers.new ≡ answers_of r records.now (length out.old) answers.old)
        × (out.new ≡ lines_of r records.now (length answers.old) out.old) }
{
    if out.len() / 10 < records.len() {
        return unfed(
            r,
            Err(Unwritten::Refused(refusal_number(Refusal::ShortBuffer))),
        );
    }
    match r.course {
        Course::SetUps | Course::Records => fed(r, records, answers, out),
        Course::Refused(w) => unfed(r, Err(Unwritten::SetUp(w))),
    }
}

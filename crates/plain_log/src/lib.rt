// The night log over the C interface, in numbers and bytes alone: records written one at a time into a lent buffer, and read at a byte of a lent log.
// For C callers that need no table.
// Kept (1): the C interface hands the answer out as one word, a number or a refusal (02); below the entry they are a `Result`.
// Kept (5): the C interface hands these in one by one.
#![tactic(auto)]

ghost use Rattle.std.specs.Prelude.{◌≡◌, length};
ghost use Rattle.log_records.specs.Record.{tick, frame, longest_record};
ghost use Rattle.log_records.specs.Reading.{found_at};
ghost use Rattle.log_write.specs.Writing.{written_of, buffer_after};
ghost use Rattle.plain_words.specs.Words.{Within, outcome_of};
ghost use Rattle.plain_log.specs.Night.{logged_outcome, logged_word, entry_numbers, found_outcome, found_word, entry_left};

use log_records::{Entry, Found};
use plain_words::answer_word;
use refusals::Refusal;

// ---- writing

fn logged_word(w: Result<usize, Refusal>) -> u32
    requires { Within longest_record (logged_outcome w) }
    ensures { result ≡ logged_word w }
{
    answer_word(w.map(|n| n as u32))
}

#[unsafe(no_mangle)]
pub extern "C" fn rokemaipu_log_frame(
    time: u32,
    channel: u32,
    id: u32,
    extended: bool,
    payload: &[u8],
    out: &mut [u8],
) -> u32
    ensures { (result ≡ logged_word (written_of (frame time channel extended id payload.now) out.old))
        × (out.new ≡ buffer_after (frame time channel extended id payload.now) out.old) }
{
    logged_word(log_write::write_frame(time, channel, id, extended, payload, out))
}

#[unsafe(no_mangle)]
pub extern "C" fn rokemaipu_log_tick(time: u32, channel: u32, out: &mut [u8]) -> u32
    ensures { (result ≡ logged_word (written_of (tick time channel) out.old)) × (out.new ≡ buffer_after (tick time channel) out.old) }
{
    logged_word(log_write::write_tick(time, channel, out))
}

// ---- reading

fn entry_numbers(e: Entry) -> [u64; 8]
    ensures { result ≡ entry_numbers e }
{
    [
        u64::from(e.tick),
        u64::from(e.time),
        u64::from(e.channel),
        u64::from(e.id),
        u64::from(e.extended),
        e.start as u64,
        e.length as u64,
        e.next as u64,
    ]
}

// What stands at byte `at` of the log s; a record's numbers come into the first 8 places.
fn read_at(s: &[u8], at: usize, numbers: &mut [u64]) -> Result<u32, Refusal>
    ensures answer { outcome_of result ≡ found_outcome (found_at s.now at) (length numbers.old) }
    ensures left { numbers.new ≡ entry_left (found_at s.now at) numbers.old }
{
    match log_read::record_at(s, at) {
        Found::Record(e) => {
            let places = numbers.first_chunk_mut().ok_or(Refusal::ShortBuffer)?;
            *places = entry_numbers(e);
            Ok(0)
        }
        Found::End => Ok(1),
        Found::Cut(_) => Ok(2),
        Found::Refused(w, _) => Err(w),
    }
}

#[unsafe(no_mangle)]
pub extern "C" fn rokemaipu_log_record(s: &[u8], at: usize, numbers: &mut [u64]) -> u32
    ensures { (result ≡ found_word (found_at s.now at) (length numbers.old))
        × (numbers.new ≡ entry_left (found_at s.now at) numbers.old) }
{
    answer_word(read_at(s, at, numbers))
}

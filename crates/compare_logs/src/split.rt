// A log taken apart: where each record begins and ends, and its key, which is channel and time in one number.
ghost use Rattle.std.specs.Prelude.{◌≡◌, ℕ, ◌+◌, ◌*◌, ◌/◌, ◌≤◌, ◌<◌, length, set, MatchOption, MatchResult};
ghost use Rattle.std.proofs.Math.Option.{none, some};
ghost use Rattle.log_records.specs.Record.{record_bytes};
ghost use Rattle.log_records.specs.Reading.{log_of};
ghost use Rattle.compare_rules.specs.Records.{at};
ghost use Rattle.compare_rules.specs.Compare.{most, records_of, broken_at};
ghost use Rattle.compare_logs.specs.Held.{split_of, Held, Ready, Ready-prop};

use compare_rules::MOST;
use log_read::{Ending, Records, ending_at};

pub const STARTS: usize = 513;

// A log of at most 512 records taken apart: its bytes, where each record begins and ends, the key of each, and how many there are.
#[derive(Clone, Copy)]
pub struct Parts<'a> {
    pub bytes: &'a [u8],
    pub starts: &'a [usize; STARTS],
    pub keys: &'a [u64; MOST],
    pub count: usize,
    ghost ready: { Ready bytes.now starts.now keys.now count } by { Ready-prop bytes.now starts.now keys.now count },
}

impl<'a> Parts<'a> {
    // None where there are more records, and an error is the byte where one begins that is malformed or cut.
    pub fn of(
        bytes: &'a [u8],
        starts: &'a mut [usize; STARTS],
        keys: &'a mut [u64; MOST],
    ) -> Result<Option<Parts<'a>>, usize>
        ensures { MatchResult result
            (λ parts. (broken_at (log_of bytes.now) ≡ none) × MatchOption parts (most < length (records_of bytes.now)) (λ p. p.bytes.now ≡ bytes.now))
            (λ byte. broken_at (log_of bytes.now) ≡ some byte) }
    {
        let count = take_apart(bytes, starts, keys)?;
        if MOST < count {
            return Ok(None);
        }
        Ok(Some(Parts {
            bytes,
            starts,
            keys,
            count,
        }))
    }

    // The bytes of a record.
    pub fn record(&self, i: usize) -> &[u8]
        requires { i < self.now.count }
        ensures { result.now ≡ record_bytes (at (records_of self.now.bytes.now) i) }
    {
        &self.bytes[self.starts[i]..self.starts[i + 1]]
    }
}

// Channel and time in one number.
fn key_of(channel: u32, time: u32) -> u64
    ensures { result ≡ channel * 4294967296 + time }
{
    (u64::from(channel) << 32) + u64::from(time)
}

pub fn channel_of(key: u64) -> u64
    ensures { result ≡ key / 4294967296 }
{
    key >> 32
}

// A store past the end changes nothing.
// Kept (6): by `if let Some(place) = xs.get_mut(i)` the proof did not close (`returns-in-Some`): std says nothing of what a slice ends as that `get_mut` lent.
fn put<T: Copy>(xs: &mut [T], i: usize, v: T)
    ensures { xs.new ≡ set xs.old i v }
{
    if i < xs.len() {
        xs[i] = v;
    }
}

// The whole log, record by record, of which the first 512 are kept: how many there are, or the byte where one begins that is malformed or cut.
pub fn take_apart(
    s: &[u8],
    starts: &mut [usize; STARTS],
    keys: &mut [u64; MOST],
) -> Result<usize, usize>
    requires { (length starts.old ≡ 513) × (length keys.old ≡ most) }
    ensures { (result ≡ split_of 0 (log_of s.now))
        × ((n : ℕ) → result ≡ Ok n → n ≤ most → Held s.now (records_of s.now) starts.new keys.new n) }
{
    let mut at: usize = 0;
    let mut n: usize = 0;
    put(starts, 0, 0);
    for e in Records::new(s) {
        put(keys, n, key_of(e.channel, e.time));
        n += 1;
        at = e.next;
        put(starts, n, at);
    }
    match ending_at(s, at) {
        Ending::Clean => Ok(n),
        Ending::Cut(byte) | Ending::Refused(_, byte) => Err(byte),
    }
}

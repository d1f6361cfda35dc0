// A record, part by part. 02: "the earliest bad part deciding and going before a cut".
// Kept (5): tried with a record's numbers as a struct, built in, and without the premise of `part_at`; a batch is fed a seventh more slowly.
ghost use Rattle.std.specs.Prelude.{◌≡◌, ◌≤◌, length, IfOk};
ghost use Rattle.log_records.specs.Reading.{length_part, record_at, part};

use log_numbers::number_at;
use log_records::{Entry, LAST_CHANNEL, RecordError, above, identifiers};
use refusals::Refusal;

// The number of a part, and the place behind it. It is built in at each part: of a call a record reads more slowly.
#[inline(always)]
fn part_at(s: &[u8], at: usize) -> Result<(u32, usize), RecordError>
    requires { at ≤ length s.now }
    ensures part { result ≡ part s.now at (λ n i. Ok (n, i)) }
    ensures within { IfOk result (λ found. found.1 ≤ length s.now) }
{
    let (n, size) = number_at(s, at)?;
    Ok((n, at + size))
}

// 02: "A tick has length 9, identifier part 0 and no payload."
#[tactic(auto, unfolding(log_records::specs::Reading::length_part))]
fn entry_of(
    s: &[u8],
    time: u32,
    channel: u32,
    p: u32,
    n: u32,
    at: usize,
) -> Result<Entry, RecordError>
    requires { at ≤ length s.now }
    ensures { result ≡ length_part s.now time channel p n at }
{
    if 9 < n {
        return Err(RecordError::Bad(Refusal::LogLength));
    }
    if n == 9 {
        if p != 0 {
            return Err(RecordError::Bad(Refusal::LogTick));
        }
        return Ok(Entry {
            tick: true,
            time,
            channel,
            id: 0,
            extended: false,
            start: at,
            length: 0,
            next: at,
        });
    }
    let length = n as usize;
    if s.len() - at < length {
        return Err(RecordError::Cut);
    }
    Ok(Entry {
        tick: false,
        time,
        channel,
        id: p / 2,
        extended: p % 2 == 1,
        start: at,
        length,
        next: at + length,
    })
}

// 02: "A record is five parts: time, channel, identifier times 2 plus 1 if extended, length, then the payload bytes."
#[inline(always)]
pub fn record_from(s: &[u8], at: usize) -> Result<Entry, RecordError>
    requires { at ≤ length s.now }
    ensures { result ≡ record_at s.now at }
{
    let (time, at) = part_at(s, at)?;
    let (channel, at) = part_at(s, at)?;
    if LAST_CHANNEL < channel {
        return Err(RecordError::Bad(Refusal::LogChannel));
    }
    let (p, at) = part_at(s, at)?;
    let extended = p % 2 == 1;
    if identifiers(extended) <= p / 2 {
        return Err(RecordError::Bad(above(extended)));
    }
    let (n, at) = part_at(s, at)?;
    entry_of(s, time, channel, p, n, at)
}

// A record of a night log is written into a lent buffer (02, Req 01). For every program that keeps a log. Every public function takes any input.
#![tactic(auto)]

ghost use Rattle.std.specs.Prelude.{◌≡◌};
ghost use Rattle.log_records.specs.Record.{tick, frame};
ghost use Rattle.log_write.specs.Writing.{written_of, buffer_after};

mod number; // number.rt: a number's groups into a buffer
mod store; // store.rt: a record's bytes into a buffer

use log_records::{LAST_CHANNEL, above, identifiers};
use refusals::Refusal;
use store::{head_size, part_of, store_bytes, store_head};

// Kept (5): C hands the five in one by one (plain_log), and docs/PROMISES.md has this clause of them.
// Kept (2): the test of the identifier is log_read's too, which tells it of a record and not of a call, with another error: one line each.
// The number of the record's bytes. 02: "in the writer 9 payload bytes count as above 9, and a short buffer gives 8, last".
pub fn write_frame(
    time: u32,
    channel: u32,
    id: u32,
    extended: bool,
    payload: &[u8],
    out: &mut [u8],
) -> Result<usize, Refusal>
    ensures { (result ≡ written_of (frame time channel extended id payload.now) out.old)
        × (out.new ≡ buffer_after (frame time channel extended id payload.now) out.old) }
{
    if LAST_CHANNEL < channel {
        return Err(Refusal::LogChannel);
    }
    if identifiers(extended) <= id {
        return Err(above(extended));
    }
    if 8 < payload.len() {
        return Err(Refusal::LogLength);
    }
    let p = part_of(id, extended);
    let n = payload.len() as u32;
    let size = head_size(time, channel, p, n) + payload.len();
    if out.len() < size {
        return Err(Refusal::ShortBuffer);
    }
    let at = store_head(out, time, channel, p, n);
    store_bytes(out, at, payload);
    Ok(size)
}

// 02: "A tick has length 9, identifier part 0 and no payload."
pub fn write_tick(time: u32, channel: u32, out: &mut [u8]) -> Result<usize, Refusal>
    ensures { (result ≡ written_of (tick time channel) out.old) × (out.new ≡ buffer_after (tick time channel) out.old) }
{
    if LAST_CHANNEL < channel {
        return Err(Refusal::LogChannel);
    }
    let size = head_size(time, channel, 0, 9);
    if out.len() < size {
        return Err(Refusal::ShortBuffer);
    }
    store_head(out, time, channel, 0, 9);
    Ok(size)
}

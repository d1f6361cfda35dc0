// A replay of a night log over lent memory, for C (02, Req 05): set-ups, and then a record a call, each of which leaves exactly what `playing_words` gives by
// value.
// Kept (5): the C interface hands these in one by one.
#![tactic(auto)]

ghost use Rattle.std.specs.Prelude.{◌≡◌};
ghost use Rattle.playing_words.specs.Plain.{start_by, set_up_by, line_by, line_left, next_after};

use playing_words::{PlainReplay, line_of, settled, started};
use rule_limits::PlainLimits;

#[unsafe(no_mangle)]
pub extern "C" fn rokemaipu_replay_start(r: &mut PlainReplay) -> u32
    ensures { (result ≡ (start_by r.old).answer) × (r.new ≡ (start_by r.old).replay) }
{
    let q = started(*r);
    *r = q.replay;
    q.answer
}

#[unsafe(no_mangle)]
pub extern "C" fn rokemaipu_replay_set_up(
    r: &mut PlainReplay,
    post: u32,
    channel: u32,
    voltage: u32,
    charge: u32,
    discharge: u32,
    silence: u32,
    sensor: u32,
    interface: u32,
) -> u32
    ensures { (result ≡ (set_up_by r.old post channel voltage charge discharge silence sensor interface).answer) × (r.new ≡ (set_up_by r.old post channel voltage charge discharge silence sensor interface).replay) }
{
    let limits = PlainLimits {
        voltage,
        charge,
        discharge,
        silence,
        sensor,
        interface,
    };
    let q = settled(*r, post, channel, limits);
    *r = q.replay;
    q.answer
}

#[unsafe(no_mangle)]
pub extern "C" fn rokemaipu_replay_line(
    r: &mut PlainReplay,
    log: &[u8],
    at: usize,
    line: &mut [u8],
    next: &mut [u64],
) -> u32
    ensures { (result ≡ (line_by r.old log.now at line.old next.old).answer)
        × (r.new ≡ (line_by r.old log.now at line.old next.old).replay)
        × (line.new ≡ line_left r.old log.now at line.old next.old)
        × (next.new ≡ next_after r.old log.now at line.old next.old) }
{
    let q = line_of(*r, log, at, line, next);
    *r = q.replay;
    q.answer
}

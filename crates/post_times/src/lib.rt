// What is asked of an event's time, of one post: 2, whether it is earlier than the post's latest, where it stands, and F1 and F2, which any event may raise.
// For the post's step and for who refuses an event.
// An event is received at a time of 32 bits, which comes round; a head keeps unrolled times of 64 bits, which do not (02, Req 09).
#![tactic(auto)]

ghost use Rattle.std.specs.Prelude.{◌≡◌, ◌≤◌};
ghost use Rattle.rules.specs.Times.{wrapped, earlier};
ghost use Rattle.rules.specs.After.{stamp_in, is_early, later_of, silent_in, late_after, any_findings};

// The crates among these are passed on to those above, which name them through this one.
use rule_asks::flag;
pub use rules;
use rules::{F1, F2, Head, STATUS_PLACE, Session, Slot};

// ---- the questions about times, each in one place

// The ms by which a time is later than the latest, by a clock that comes round.
fn ms_later(time: u32, latest: u64) -> u32
    ensures { result ≡ wrapped time latest }
{
    time.wrapping_sub((latest % 4294967296) as u32)
}

// Half the range and more is earlier.
fn is_earlier(time: u32, latest: u64) -> bool
    ensures { result ≡ earlier time latest }
{
    2147483648 <= ms_later(time, latest)
}

// Where an event that is received at a time stands: that much later than the latest; a head that was not heard has the time 0.
#[tactic(auto, unfolding(rules::specs::After::stamp_in))]
pub fn stamp(h: Head, time: u32) -> u64
    ensures { result ≡ stamp_in h time }
{
    h.time.wrapping_add(u64::from(ms_later(time, h.time)))
}

// ---- 2

pub fn is_early(h: Head, time: u32) -> bool
    ensures { result ≡ is_early h time }
{
    h.is_heard() && is_earlier(time, h.time)
}

// ---- F1 and F2, of a head that was aged to the event's time

fn later(since: u64, st: Slot) -> u64
    ensures { result ≡ later_of since st }
{
    if st.is_known() {
        since.max(st.time)
    } else {
        since
    }
}

// F1
#[tactic(auto, unfolding(rules::specs::After::silent_in))]
fn silent(s: Session, w: u32, now: u64) -> bool
    ensures { result ≡ silent_in s w now }
{
    s.is_open() && u64::from(w) < now.saturating_sub(later(s.since, s.kept[STATUS_PLACE]))
}

// F2
#[tactic(auto, unfolding(rules::specs::After::late_after))]
fn late(l: Slot, now: u64) -> bool
    ensures { result ≡ late_after l now }
{
    l.is_known() && 200 < now.saturating_sub(l.time)
}

#[tactic(auto, unfolding(rules::specs::After::any_findings))]
pub fn any_findings(h: Head) -> u32
    ensures { (result ≡ any_findings h) × (result ≤ 3) }
{
    flag(silent(h.session, h.limits.silence, h.time), F1) + flag(late(h.controller, h.time), F2)
}

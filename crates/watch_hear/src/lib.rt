// One post hears what comes to it: 1 where it does not hold the channel, 2, then the reader's 3 to 6 with 29 in 3's place, then 25, then the findings.
// For every way to step a table of posts.
#![tactic(auto)]

ghost use Rattle.std.specs.Prelude.{◌≡◌};
ghost use Rattle.post.specs.rules.specs.After.{is_full_in};
ghost use Rattle.watch_places.specs.watch_rules.specs.Steps.{HearRight};
ghost use Rattle.watch_places.specs.watch_rules.specs.Table.{arrival_for, turned_away, heard_by, judged_of, heard_of, one_more, refused_after};

// The crates among these are passed on to those above, which name them through this one.
use page_interfaces::judge_for;
use post::post_times;
use post::rules::{AfterEvent, Head, PLACES, Slot};
use refusals::Refusal;
use rule_limits::{Interface, PlainLimits};
pub use watch_places;
use watch_places::is_held;
pub use watch_places::watch_rules;
use watch_places::watch_rules::{Arrival, Heard};

// What a frame is to a post, by its limits and by what the pages of its interface say. A kind that was read fits the word that a slot has for it.
// Kept (5): identifier, form and payload go one by one from the entries, as C hands them in, to the reader.
pub fn arrival_for(limits: PlainLimits, id: u32, extended: bool, payload: &[u8]) -> Arrival
    ensures { result ≡ arrival_for limits id extended payload.now }
{
    match judge_for(Interface::from(limits.interface), id, extended, payload) {
        Ok((kind, raw)) => Arrival::Frame {
            kind: kind as u32,
            raw,
        },
        Err(w) => Arrival::Unread(w),
    }
}

fn turned_away(h: Head, w: Refusal) -> Heard
    ensures { result ≡ turned_away h w }
{
    Heard {
        head: h,
        slot: Slot::default(),
        at: PLACES,
        answer: Err(w),
    }
}

// 02, Req 08: one event more "would take its post's count past the largest".
fn is_full(h: Head) -> bool
    ensures { result ≡ is_full_in h }
{
    h.counts[0] == u32::MAX
}

// What an event leaves, as what its post heard.
fn heard_by(r: AfterEvent) -> Heard
    ensures { result ≡ heard_by r }
{
    Heard {
        head: r.head,
        slot: r.slot,
        at: r.at,
        answer: Ok(r.findings),
    }
}

// It stays at 4,294,967,295 once there.
fn one_more(n: u64) -> u64
    ensures { result ≡ one_more n }
{
    if n < u64::from(u32::MAX) { n + 1 } else { n }
}

// An event that is in time, on the post that holds its channel.
fn judged(h: Head, time: u32, a: Arrival) -> Heard
    ensures { result ≡ judged_of h time a }
{
    match a {
        Arrival::Unread(w) => turned_away(h, w),
        _ if is_full(h) => turned_away(h, Refusal::CountFull),
        Arrival::Tick => heard_by(post::tick(h, time)),
        Arrival::Frame { kind, raw } => heard_by(post::frame(h, time, kind, raw)),
    }
}

pub fn hear(h: Head, channel: u32, time: u32, a: Arrival) -> Heard
    ensures by_record { result ≡ heard_of h channel time a }
    ensures by_history { HearRight h channel time a result }
{
    if !is_held(h, channel) {
        turned_away(h, Refusal::ChannelFree)
    } else if post_times::is_early(h, time) {
        turned_away(h, Refusal::Earlier)
    } else {
        judged(h, time, a)
    }
}

// The table's count of refused frames and ticks after an answer.
pub fn refused_after(n: u64, a: Result<u32, Refusal>) -> u64
    ensures { result ≡ refused_after n a }
{
    if a.is_err() { one_more(n) } else { n }
}

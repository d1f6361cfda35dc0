// One post of the session watch, by value: a post that is set up, and its head stepped by a tick or a frame, with the event's findings. For the tables of
// posts.
// A step has two promises: what it is for every head, and, for whatever history with room for one event more the head stands for,
// that its findings are 01's over that history and that the post with what it leaves stands for the longer one.
#![tactic(auto)]

ghost use Rattle.std.specs.Prelude.{◌≡◌};
ghost use Rattle.post_times.specs.rules.specs.Right.{tick_at, frame_at, AfterRight};
ghost use Rattle.post_times.specs.rules.specs.After.{after_tick, after_frame, free_post, fresh_post};

mod step; // step.rt: a head after one event more

// The crates among these are passed on to those above, which name them through this one.
use post_findings::rule_pages::place_by;
pub use post_times;
pub use post_times::rules;
use post_times::rules::{AfterEvent, Head, PLACES, Post, Slot};
use rule_limits::PlainLimits;

// A post that is not set up.
pub fn free_post() -> Post
    ensures { result ≡ free_post }
{
    Post::default()
}

// A post that was just set up, and that nothing was heard of.
pub fn fresh_post(channel: u32, limits: PlainLimits) -> Post
    ensures { result ≡ fresh_post channel limits }
{
    Post {
        head: Head {
            used: 1,
            channel,
            limits,
            ..Head::default()
        },
        ..Post::default()
    }
}

// The head goes to the event's time first, and is judged there; then the frame is put in, and the event counted. A tick is the same without a frame.
pub fn tick(h: Head, time: u32) -> AfterEvent
    ensures by_record { result ≡ after_tick h time }
    ensures by_history { AfterRight h (tick_at time) result }
{
    let g = step::aged(h, post_times::stamp(h, time));
    let findings = post_times::any_findings(g);
    AfterEvent {
        head: step::with_counts(g, findings),
        slot: Slot::default(),
        at: PLACES,
        findings,
    }
}

pub fn frame(h: Head, time: u32, kind: u32, raw: u64) -> AfterEvent
    ensures by_record { result ≡ after_frame h time kind raw }
    ensures by_history { AfterRight h (frame_at time kind raw) result }
{
    let k = kind as usize;
    let g = step::aged(h, post_times::stamp(h, time));
    let findings = post_times::any_findings(g) + post_findings::message_findings(g, k, raw);
    let slot = step::slot_at(g.time, kind, raw);
    let f = step::with_frame(g, k, slot);
    AfterEvent {
        head: step::with_counts(f, findings),
        slot,
        at: place_by(k),
        findings,
    }
}

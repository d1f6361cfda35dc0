// Frames and ticks to the table of posts, by value: the table goes in and comes back.
// Each has two promises: what its answer and its table are for every table, and, for whatever accepted steps the table stands for,
// that the answer is what 01's rules give when read afresh over those steps, and that the table then stands for the extended steps.
// For users of the library, through `watch`.
// Kept (2): `frame` and `tick` have two lines in common, the place and its head; what comes goes by the limits of that head. A function over a closure for it,
// with the closure's `pre` and `post` in its clauses, is longer than the two lines.
// Kept (5): channel, time and frame go on one by one: docs/LIBRARY.md has `watch::frame` and `watch::tick` so.
#![tactic(auto)]

ghost use Rattle.std.specs.Prelude.{◌≡◌, ◌<◌};
ghost use Rattle.watch_hear.specs.watch_rules.specs.Steps.{Steps, Kept, FeedRight};
ghost use Rattle.watch_hear.specs.watch_rules.specs.Table.{post_count, framing, ticking, fed_by, feed_of};

use watch_hear::watch_places::{put, some_place, store};
use watch_hear::watch_rules::{Arrival, Fed, Heard, Stepped, Table};
use watch_hear::{arrival_for, hear, refused_after};

// The table with what the post at a place heard.
fn fed(t: Table, i: usize, r: Heard) -> Fed
    requires { i < post_count }
    ensures { result ≡ fed_by t i r }
{
    let q = store(t.posts[i], r.head, r.at, r.slot);
    Stepped {
        table: Table {
            refused: refused_after(t.refused, r.answer),
            ..put(t, i, q)
        },
        answer: r.answer,
    }
}

// 01: "Watching a frame gives 1 to 6".
pub fn frame(t: Table, channel: u32, time: u32, id: u32, extended: bool, payload: &[u8]) -> Fed
    ensures by_record { result ≡ feed_of t channel time (framing id extended payload.now) }
    ensures by_history { (s : Steps) → Kept t s → FeedRight s channel time (framing id extended payload.now) result }
{
    let i = some_place(t, channel);
    let h = t.posts[i].head;
    let a = arrival_for(h.limits, id, extended, payload);
    fed(t, i, hear(h, channel, time, a))
}

// "a tick 1 or 2".
pub fn tick(t: Table, channel: u32, time: u32) -> Fed
    ensures by_record { result ≡ feed_of t channel time ticking }
    ensures by_history { (s : Steps) → Kept t s → FeedRight s channel time ticking result }
{
    let at = some_place(t, channel);
    let h = t.posts[at].head;
    fed(t, at, hear(h, channel, time, Arrival::Tick))
}

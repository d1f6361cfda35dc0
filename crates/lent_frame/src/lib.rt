// A frame in place: its post is found by the index, the frame is read by its limits, and one head is copied out and stepped by value.
// Where the frame is taken the head is stored back, and the frame in its kind's place; else the count of what was refused is stored alone.
// The frame is read before the head is copied out, so that no head is kept on the stack meanwhile.
// Its answer and the table are exactly what `watch::frame` gives.
// For C, and through `gateway` for Rattle.
// Kept (1): the C interface hands the answer out as one word (02); what a post hears, below, is a `Result`.
// Kept (2): its body is that of `lent_tick`, but that the frame is read: the compiler builds a step into its entry only where the step has one caller (a frame
// took 54 ns instead of 20 where both were in one module), and what both store behind it would, as one public function, ask that the place is a post's: no
// public function asks anything.
#![tactic(auto)]

ghost use Rattle.std.specs.Prelude.{◌≡◌};
ghost use Rattle.lent_heads.specs.lent_step.specs.Fed.{frame_word};

use lent_heads::lent_step::heard_on;
use lent_heads::lent_words::Lent;
use rules::PLACES;
use watch_hear::arrival_for;
use watch_hear::watch_places::indexed_place;
use watch_hear::watch_rules::{Stepped, Table};

#[unsafe(no_mangle)]
pub extern "C" fn rokemaipu_frame(
    t: &mut Table,
    channel: u32,
    time: u32,
    id: u32,
    extended: bool,
    payload: &[u8],
) -> u32
    ensures { (result ≡ (frame_word t.old channel time id extended payload.now).answer) × (t.new ≡ (frame_word t.old channel time id extended payload.now).table) }
{
    let i = indexed_place(&t.index, channel);
    let limits = t.posts[i].head.limits;
    let a = arrival_for(limits, id, extended, payload);
    let r = heard_on(t.posts[i].head, t.refused, channel, time, a);
    if r.taken {
        t.posts[i].head = r.head;
        // Kept (6): tried by `get_mut`: as fast (bench/revisions), but of a slice that it lent a proof knows the length and no element (Rattle's docs), so
        // that what the post has then stood open (`returns-in-Some`).
        let at = r.at;
        if at < PLACES {
            t.posts[i].latest[at] = r.slot;
        }
    } else {
        t.refused = r.refused;
    }
    r.answer
}

// By value over the entry, for callers in Rattle, through `gateway`: they make no reference to a table themselves.
// Kept (5): docs/PROMISES.md names it among what callers in Rattle use, who hand channel, time and frame to it one by one, as C does to the entry.
pub fn lend_frame(
    mut t: Table,
    channel: u32,
    time: u32,
    id: u32,
    extended: bool,
    payload: &[u8],
) -> Lent
    ensures { result ≡ frame_word t channel time id extended payload.now }
{
    let answer = rokemaipu_frame(&mut t, channel, time, id, extended, payload);
    Stepped { table: t, answer }
}

// A tick in place, as a frame is in `lent_frame`: its answer and the table are exactly what `watch::tick` gives. For C, and through `gateway` for Rattle.
// Kept (1): the C interface hands the answer out as one word (02); what a post hears, below, is a `Result`.
// Kept (2): tried: one function over a closure for the entry, for `lend_tick`, `lend_frame` and `lend_batch`, has to ask by a `requires` that the closure may
// be called (`step-answer-requires`), and no public function here has one.
#![tactic(auto)]

ghost use Rattle.std.specs.Prelude.{◌≡◌};
ghost use Rattle.lent_heads.specs.lent_step.specs.Fed.{tick_word};

use lent_heads::lent_step::heard_on;
use lent_heads::lent_words::Lent;
use rules::PLACES;
use watch_places::indexed_place;
use watch_places::watch_rules::{Arrival, Stepped, Table};

#[unsafe(no_mangle)]
pub extern "C" fn rokemaipu_tick(t: &mut Table, channel: u32, time: u32) -> u32
    ensures { (result ≡ (tick_word t.old channel time).answer) × (t.new ≡ (tick_word t.old channel time).table) }
{
    let i = indexed_place(&t.index, channel);
    let r = heard_on(t.posts[i].head, t.refused, channel, time, Arrival::Tick);
    if r.taken {
        t.posts[i].head = r.head;
        // Kept (6): tried by `get_mut`: as fast (bench/revisions), but of a slice that it lent a proof knows the length and no element (Rattle's docs), so
        // that what the post has then stood open (`returns-in-Some`).
        let at = r.at;
        if at < PLACES {
            t.posts[i].latest[at] = r.slot;
        }
    } else {
        t.refused = r.refused;
    }
    r.answer
}

// By value over the entry, for callers in Rattle, through `gateway`: they make no reference to a table themselves.
pub fn lend_tick(mut t: Table, channel: u32, time: u32) -> Lent
    ensures { result ≡ tick_word t channel time }
{
    let answer = rokemaipu_tick(&mut t, channel, time);
    Stepped { table: t, answer }
}

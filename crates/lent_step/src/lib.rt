// What comes over one post's head, by value and with the answer as a word: `watch_hear::hear`, by which the table's own step goes too.
// For `lent_frame` and `lent_tick`, which copy a head out of a lent table.
// Where what comes is taken they store the head and one slot back, and else the count of what was refused alone.
#![tactic(auto)]

ghost use Rattle.std.specs.Prelude.{◌≡◌};
ghost use Rattle.lent_step.specs.One.{worded_by, heard_on};

// The crates among these are passed on to those above, which name them through this one.
pub use lent_words;
use lent_words::answer_word;
use rules::{Head, Slot};
use watch_hear::watch_rules::{Arrival, Heard};
use watch_hear::{hear, refused_after};

// What a post heard, with the table's count of refused frames and ticks afterwards, the answer as a word, and whether it was taken.
// Where it was, the count is as it was; where it was not, the head is, and no slot is filled (`heard_apart`, proofs/Taken.antt).
// Kept (1): heard_apart, and lent_at, of which frame_same speaks, are over these fields.
#[derive(Clone, Copy)]
pub struct Worded {
    pub head: Head,
    pub slot: Slot,
    pub at: usize,
    pub refused: u64,
    pub answer: u32,
    pub taken: bool,
}

fn in_words(n: u64, r: Heard) -> Worded
    ensures { result ≡ worded_by n r }
{
    Worded {
        head: r.head,
        slot: r.slot,
        at: r.at,
        refused: refused_after(n, r.answer),
        answer: answer_word(r.answer),
        taken: r.answer.is_ok(),
    }
}

pub fn heard_on(h: Head, refused: u64, channel: u32, time: u32, a: Arrival) -> Worded
    ensures { result ≡ heard_on h refused channel time a }
{
    in_words(refused, hear(h, channel, time, a))
}

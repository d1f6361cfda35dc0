// The operations of `watch` that set posts up and release them, by value and with their answers as words:
// what `lent_settings` hands the whole of a lent table to.
// Whoever calls from Rattle and wants words may use them too.
// Kept (2): `fed_word` and `set_word` differ in the function that makes the answer a word. As one generic function over it, which has the function's `pre` and
// `post` in its clauses, and two calls of it, they are longer; a start has no answer to make one of.
#![tactic(auto)]

ghost use Rattle.std.specs.Prelude.{◌≡◌};
ghost use Rattle.lent_words.specs.Words.{setting_word};
ghost use Rattle.lent_words.specs.Lent.{lent_fed, lent_settled, start_of, set_up_word, release_word};

// A frame's or a tick's answer as a word.
pub use plain_words::answer_word;
use refusals::Refusal;
use rule_limits::PlainLimits;
use watch_rules::{Fed, Settled, Stepped, Table};

// A table after a step whose answer is a word.
pub type Lent = Stepped<u32>;

// A set-up or a release that was taken answers 0.
// Kept (1): the C interface: 02 gives each entry's answer as a word of 32 bits.
fn setting_word(a: Result<(), Refusal>) -> u32
    ensures { result ≡ setting_word a }
{
    answer_word(a.and(Ok(0)))
}

// What a frame or a tick left, the answer as a word.
// Kept (4): no `From`, since `Lent` is a type of another crate's (`Stepped`).
pub fn fed_word(r: Fed) -> Lent
    ensures { result ≡ lent_fed r }
{
    Stepped {
        table: r.table,
        answer: answer_word(r.answer),
    }
}

// What a set-up or a release left.
// Kept (4): as `fed_word`.
fn set_word(r: Settled) -> Lent
    ensures { result ≡ lent_settled r }
{
    Stepped {
        table: r.table,
        answer: setting_word(r.answer),
    }
}

// ---- by value, with words

// The empty table; what the lent one was is forgotten.
#[tactic(auto, unfolding(crate::specs::Lent::start_of))]
pub fn started(t: Table) -> Lent
    ensures { result ≡ start_of t }
{
    Stepped {
        table: watch::empty(),
        answer: 0,
    }
}

#[tactic(auto, unfolding(crate::specs::Lent::set_up_word))]
pub fn settled(t: Table, post: u32, channel: u32, limits: PlainLimits) -> Lent
    ensures { result ≡ set_up_word t post channel limits }
{
    set_word(watch::set_up_plain(t, post, channel, limits))
}

#[tactic(auto, unfolding(crate::specs::Lent::release_word))]
pub fn released(t: Table, post: u32) -> Lent
    ensures { result ≡ release_word t post }
{
    set_word(watch::release(t, post))
}

// A post's numbers over the C interface: of the record that `watch::look_up` hands out, all but the messages. The lent table is only read.
// For C callers; a caller in Rattle asks `watch::look_up`.
// Kept (1): the C interface hands the answer out as one word, a number or a refusal (02); below the entry they are a `Result`.
#![tactic(auto)]

ghost use Rattle.std.specs.Prelude.{◌≡◌, length};
ghost use Rattle.rules.specs.After.{last_in, part_in, post_record};
ghost use Rattle.watch_rules.specs.Table.{look_up_of};
ghost use Rattle.plain_words.specs.Words.{outcome_of};
ghost use Rattle.lent_numbers.specs.LookUp.{number_count, last_numbers, session_numbers, numbers_of, room_outcome, room_left, handed_outcome, look_up_word, numbers_after};

use lent_look::post_at;
use message_types::labels::Label;
use plain_words::answer_word;
use post_ages::{age, received};
use refusals::Refusal;
use rule_limits::{Interface, Sensor};
use rules::{Head, Post};
use watch_rules::Table;

// 1 and the time of the post's latest event as it was received, or twice 0.
fn last_numbers(h: &Head) -> [u32; 2]
    ensures { result ≡ last_numbers (last_in h.now) }
{
    if !h.is_heard() {
        return [0; 2];
    }
    [1, received(h.time)]
}

// Of an open session 1, since when, the opening's protocol and plug, and its age; or five times 0.
fn session_numbers(h: &Head) -> [u32; 5]
    ensures { result ≡ session_numbers (part_in h.now.time h.now.session) }
{
    let s = h.session;
    if !s.is_open() {
        return [0; 5];
    }
    let n = message_parts::session_in(s.first);
    [
        1,
        received(s.since),
        u32::from(n.protocol.number()),
        u32::from(n.plug.number()),
        age(h.time, s.since),
    ]
}

// How many they are.
const NUMBERS: usize = 14;

fn numbers_of(p: &Post) -> [u32; NUMBERS]
    ensures { result ≡ numbers_of (post_record p.now) }
{
    let h = &p.head;
    let l = h.limits;
    let [heard, time] = last_numbers(h);
    let [open, since, protocol, plug, ms] = session_numbers(h);
    [
        h.channel,
        l.voltage,
        l.charge,
        l.discharge,
        l.silence,
        u32::from(Sensor::from(l.sensor)),
        heard,
        time,
        open,
        since,
        protocol,
        plug,
        ms,
        u32::from(Interface::from(l.interface)),
    ]
}

// Numbers into lent places: a post's own, and its counts (`lent_counts`).
// Kept (1): no `Result<(), Refusal>`: `room_outcome` says the word of the answer, which is 0 where all went well, and `outcome_of` is of a number or a refusal:
// for another type it would stand twice.
// Kept (6): by `get_mut(..ns.len())` the proof did not close: that nothing is left changed where it gives none.
pub fn hand_out(ns: &[u32], numbers: &mut [u32]) -> Result<u32, Refusal>
    ensures answer { outcome_of result ≡ room_outcome (length ns.now) (length numbers.old) }
    ensures left { numbers.new ≡ room_left (length ns.now) ns.now numbers.old }
{
    if numbers.len() < ns.len() {
        return Err(Refusal::ShortBuffer);
    }
    numbers[..ns.len()].copy_from_slice(ns);
    Ok(0)
}

#[tactic(auto, unfolding(crate::specs::LookUp::numbers_after))]
fn looked(t: &Table, post: u32, numbers: &mut [u32]) -> Result<u32, Refusal>
    ensures answer { outcome_of result ≡ handed_outcome number_count (look_up_of t.now post).answer (length numbers.old) }
    ensures left { numbers.new ≡ numbers_after t.now post numbers.old }
{
    let p = post_at(t, post)?;
    hand_out(&numbers_of(p), numbers)
}

#[tactic(auto, unfolding(crate::specs::LookUp::look_up_word))]
#[unsafe(no_mangle)]
pub extern "C" fn rokemaipu_look_up(t: &Table, post: u32, numbers: &mut [u32]) -> u32
    ensures { (result ≡ look_up_word t.now post numbers.old) × (numbers.new ≡ numbers_after t.now post numbers.old) }
{
    answer_word(looked(t, post, numbers))
}

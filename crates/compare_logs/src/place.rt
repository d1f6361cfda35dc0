// For each channel the first place where its two sequences differ.
// Kept (6): no heap, so the channels that a log has are marked in an array of as many as 02 names.
ghost use Rattle.std.specs.Prelude.{◌≡◌, false, ℕ, ◌≤◌, ◌<◌, length, get_or, MatchOption};
ghost use Rattle.std.proofs.lemmas.List.Edits.{sets};
ghost use Rattle.compare_rules.specs.Places.{place_on, places_of, channels};
ghost use Rattle.compare_rules.specs.Compare.{records_of};
ghost use Rattle.compare_logs.specs.Held.{NextOn, Marked};

use crate::pair::equal;
use crate::split::{Parts, channel_of};
use compare_rules::CHANNELS;

// The next record on a channel.
fn next_on(log: &Parts, c: u64, from: usize) -> Option<usize>
    requires { from ≤ log.now.count }
    ensures { MatchOption result (NextOn log.now.keys.now c from log.now.count log.now.count)
        (λ i. (i < log.now.count) × NextOn log.now.keys.now c from log.now.count i) }
{
    (from..log.count).find(|i| channel_of(log.keys[*i]) == c)
}

// Kept (1): `place_on`, and the places that C is lent, have 0 for a channel that does not differ.
fn place_of(a: &Parts, b: &Parts, c: u64) -> u32
    ensures { result ≡ place_on c (records_of a.now.bytes.now) (records_of b.now.bytes.now) }
{
    let mut x: usize = 0;
    let mut y: usize = 0;
    let mut k: u32 = 1;
    // Kept (3): tried over two `filter`s over `0..count`, each asked by `next`: the check takes that form, and its proof is not closed: open stands
    // `next-requires-in-loop-i` (both closures can be called at each turn), and the goals that `NextOn` answers here have `filter_steps` in its place.
    loop {
        let i = next_on(a, c, x);
        let j = next_on(b, c, y);
        match (i, j) {
            (None, None) => return 0,
            (Some(_), None) | (None, Some(_)) => return k,
            (Some(i), Some(j)) => {
                if !equal(a, i, b, j) {
                    return k;
                }
                x = i + 1;
                y = j + 1;
                k += 1;
            }
        }
    }
}

// The channels that a log has, marked.
// Kept (3): over the first of the keys as a slice the proof did not close: how long an array behind a field is, is not known.
fn mark_channels(log: &Parts, seen: &mut [bool; CHANNELS])
    ensures { Marked log.now.keys.now seen.old seen.new log.now.count }
{
    for i in 0..log.count {
        let c = channel_of(log.keys[i]) as usize;
        if c < CHANNELS {
            seen[c] = true;
        }
    }
}

fn store_places(a: &Parts, b: &Parts, seen: &[bool; CHANNELS], places: &mut [u32; CHANNELS])
    requires { (c : ℕ) → c < channels → get_or seen.now c false ≡ false → place_on c (records_of a.now.bytes.now) (records_of b.now.bytes.now) ≡ 0 }
    ensures { places.new ≡ sets places.old 0 (places_of (records_of a.now.bytes.now) (records_of b.now.bytes.now)) }
{
    for (c, place) in places.iter_mut().enumerate() {
        *place = if seen[c] { place_of(a, b, c as u64) } else { 0 };
    }
}

// Only channels that one of the logs has are gone through.
#[inline(always)]
pub fn all_places(a: &Parts, b: &Parts, places: &mut [u32; CHANNELS])
    ensures { places.new ≡ sets places.old 0 (places_of (records_of a.now.bytes.now) (records_of b.now.bytes.now)) }
{
    let mut seen = [false; CHANNELS];
    mark_channels(a, &mut seen);
    mark_channels(b, &mut seen);
    store_places(a, b, &seen, places);
}

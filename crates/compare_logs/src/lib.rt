// Two night logs compared (02, Req 10), by value: the records that one has and the other has not, by their numbers, and for each channel the first place
// where its two sequences differ. Nothing is allocated. For `lent_compare`, and for callers in Rattle.
// Kept (5): the C interface hands logs, lists and places in one by one, and `compare` answers as its entry does.
// Kept (6): no heap, so what is kept of a log stands in arrays for the 512 records that 02 allows.
#![tactic(auto)]

ghost use Rattle.std.specs.Prelude.{◌≡◌, length};
ghost use Rattle.compare_rules.specs.Compare.{records_of, judged, listed_of, compared_of, first_after, second_after, places_after};
ghost use Rattle.compare_logs.specs.Held.{Comes};

mod split; // split.rt: a log taken apart into its records
mod pair; // pair.rt: the records of two logs, paired off
mod place; // place.rt: the places of the channels

use compare_rules::{CHANNELS, Listed, MOST, Unlisted};
use pair::{list_free, pair_off};
use place::all_places;
use refusals::Refusal;
use split::{Parts, STARTS};

fn unlisted(why: Refusal, side: u32, at: usize) -> Unlisted
    ensures { result ≡ record { why = why; side = side; at = at } }
{
    Unlisted { why, side, at }
}

// Both logs are at most 512 records.
// It is built in, and what it calls with the parts: by calls each pair of records reads anew where the parts stand, and two logs all at one time took 1.12 to
// 1.26 times as long.
#[inline(always)]
fn listing(
    a: &Parts,
    b: &Parts,
    first: &mut [u32],
    second: &mut [u32],
    places: &mut [u32],
) -> Result<Listed, Unlisted>
    ensures { Comes (judged a.now.count b.now.count (length first.old) (length second.old) (length places.old) (listed_of (records_of a.now.bytes.now) (records_of b.now.bytes.now)))
        (records_of a.now.bytes.now) (records_of b.now.bytes.now) first.old second.old places.old
        result first.new second.new places.new }
{
    let room = Refusal::CompareRoom;
    let first = first.first_chunk_mut().ok_or(unlisted(room, 1, 0))?;
    let second = second.first_chunk_mut().ok_or(unlisted(room, 2, 0))?;
    let places = places
        .first_chunk_mut()
        .ok_or(unlisted(Refusal::ShortBuffer, 0, 0))?;
    let mut used = [0u8; MOST];
    let surplus = pair_off(a, b, &mut used, first);
    let left = list_free(&used, b, second);
    all_places(a, b, places);
    Ok(Listed {
        first: surplus,
        second: left,
    })
}

// The lists get the numbers of the surplus records of each log, and the first 32 of `places` a place for each channel, 0 for none. Refused, all three
// stay as they were.
pub fn compare(
    a: &[u8],
    b: &[u8],
    first: &mut [u32],
    second: &mut [u32],
    places: &mut [u32],
) -> Result<Listed, Unlisted>
    ensures { (result ≡ compared_of a.now b.now (length first.old) (length second.old) (length places.old))
        × (first.new ≡ first_after a.now b.now result first.old)
        × (second.new ≡ second_after a.now b.now result second.old)
        × (places.new ≡ places_after a.now b.now result places.old) }
{
    let mut first_starts = [0usize; STARTS];
    let mut first_keys = [0u64; MOST];
    let a = Parts::of(a, &mut first_starts, &mut first_keys).map_err(|at| unlisted(
        Refusal::CompareLog,
        1,
        at,
    ))?;
    let mut second_starts = [0usize; STARTS];
    let mut second_keys = [0u64; MOST];
    let b = Parts::of(b, &mut second_starts, &mut second_keys).map_err(|at| unlisted(
        Refusal::CompareLog,
        2,
        at,
    ))?;
    let a = a.ok_or(unlisted(Refusal::CompareRecords, 1, 0))?;
    let b = b.ok_or(unlisted(Refusal::CompareRecords, 2, 0))?;
    listing(&a, &b, first, second, places)
}

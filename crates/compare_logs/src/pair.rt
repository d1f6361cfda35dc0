// The records of two logs, paired off: each with one that is the same, and what is left over is surplus.
// Kept (1): the marks `used` were tried as `bool`: two logs of 512 records that share nothing take 7 to 10 in a hundred longer, and one set beside itself
// backwards 5 to 6, since a byte is set beside 0 where it lies and a `bool` is loaded first.
ghost use Rattle.std.specs.Prelude.{◌≡◌, cond, ℕ, ◌≤◌, ◌<◌, length, get_or, replicate, MatchBool, MatchOption};
ghost use Rattle.std.proofs.lemmas.List.Edits.{sets};
ghost use Rattle.compare_rules.specs.Records.{same, same_bytes, at};
ghost use Rattle.compare_rules.specs.Surplus.{surplus_of, is_surplus};
ghost use Rattle.compare_rules.specs.Compare.{most, records_of};
ghost use Rattle.compare_logs.specs.Held.{FirstFree, UsedBelow, free_from};

use crate::split::Parts;
use compare_rules::MOST;

// Whether two slices of one length hold the same bytes. From behind: records with one key begin alike.
// Kept (4): tried as `==`, which begins in front: comparing two logs all at one time takes half as long again.
fn same_from_behind(a: &[u8], b: &[u8]) -> bool
    requires { length a.now ≡ length b.now }
    ensures { MatchBool result ((k : ℕ) → k < length a.now → get_or a.now k 0 ≡ get_or b.now k 0)
        ((k : ℕ) × (k < length a.now) × (get_or a.now k 0 ≡ get_or b.now k 0 → ⊥)) }
{
    a.iter().rev().zip(b.iter().rev()).all(|(x, y)| *x == *y)
}

// Kept (4): `same_from_behind` is the half of it that is not `==`.
fn same_bytes(a: &[u8], b: &[u8]) -> bool
    ensures { result ≡ same_bytes a.now b.now }
{
    a.len() == b.len() && same_from_behind(a, b)
}

// Whether record i of one log is record j of the other: no two records have the same bytes.
// Kept (4): the records of a log stand as bytes alone, so there is no type whose `==` it could be.
pub fn equal(a: &Parts, i: usize, b: &Parts, j: usize) -> bool
    requires { (i < a.now.count) × (j < b.now.count) }
    ensures { result ≡ same (at (records_of a.now.bytes.now) i) (at (records_of b.now.bytes.now) j) }
{
    a.keys[i] == b.keys[j] && same_bytes(a.record(i), b.record(j))
}

// The first record of b, from `low` on, that is free and the same as record i of a.
fn first_free(a: &Parts, i: usize, b: &Parts, used: &[u8; MOST], low: usize) -> Option<usize>
    requires { (i < a.now.count) × (low ≤ b.now.count) }
    ensures { MatchOption result
        (FirstFree (records_of a.now.bytes.now) (records_of b.now.bytes.now) used.now i low b.now.count b.now.count)
        (λ j. (j < b.now.count) × FirstFree (records_of a.now.bytes.now) (records_of b.now.bytes.now) used.now i low b.now.count j) }
{
    (low..b.count).find(|j| used[*j] == 0 && equal(a, i, b, *j))
}

// Past those that are used.
fn past_used(used: &[u8; MOST], low: usize, b: &Parts) -> usize
    requires { UsedBelow used.now low × (low ≤ b.now.count) }
    ensures { UsedBelow used.now result × (result ≤ b.now.count) }
{
    (low..b.count).find(|i| used[*i] == 0).unwrap_or(b.count)
}

// Each record of the first log takes the first of the second that is the same and that none took before. What finds none is surplus, and what is
// not taken is the surplus of the other log.
#[inline(always)]
pub fn pair_off(a: &Parts, b: &Parts, used: &mut [u8; MOST], list: &mut [u32; MOST]) -> usize
    requires { used.old ≡ replicate most 0 }
    ensures { (result ≡ length (surplus_of (records_of a.now.bytes.now) (records_of b.now.bytes.now)))
        × (list.new ≡ sets list.old 0 (surplus_of (records_of a.now.bytes.now) (records_of b.now.bytes.now)))
        × ((j : ℕ) → j < b.now.count → get_or used.new j 0 ≡ cond (is_surplus (records_of b.now.bytes.now) (records_of a.now.bytes.now) j) 0 1) }
{
    let mut k: usize = 0;
    let mut low: usize = 0;
    for i in 0..a.count {
        low = past_used(used, low, b);
        match first_free(a, i, b, used, low) {
            Some(j) => used[j] = 1,
            None => {
                list[k] = (i + 1) as u32;
                k += 1;
            }
        }
    }
    k
}

// The numbers of those that none took.
pub fn list_free(used: &[u8; MOST], b: &Parts, list: &mut [u32; MOST]) -> usize
    ensures { (result ≡ length (free_from used.now 0 b.now.count)) × (list.new ≡ sets list.old 0 (free_from used.now 0 b.now.count)) }
{
    let mut k: usize = 0;
    for (j, mark) in used[..b.count].iter().enumerate() {
        if *mark == 0 {
            list[k] = (j + 1) as u32;
            k += 1;
        }
    }
    k
}

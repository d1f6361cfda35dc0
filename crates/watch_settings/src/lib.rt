// The empty table, set-up and release, by value: the table goes in and comes back, with the two promises of `watch_feed`.
// For users of the library, through `watch`.
// Kept (5): post, channel and limits go on one by one, as the entries of set-up take them and `set_up_of` has them.
#![tactic(auto)]

ghost use Rattle.std.specs.Prelude.{[], ◌≡◌, ◌<◌, MatchResult};
ghost use Rattle.rule_limits.specs.Sensor.{plain_of};
ghost use Rattle.post.specs.rules.specs.After.{fresh_post};
ghost use Rattle.watch_places.specs.watch_rules.specs.Steps.{Steps, Kept, SetUpRight, ReleaseRight};
ghost use Rattle.watch_places.specs.watch_rules.specs.Table.{post_count, empty_table, is_other, unnamed, seat, settled, unsettled, set_up_of, release_of, place_of};
ghost use Rattle.watch_places.specs.watch_rules.specs.declared.Table.{Table};

use post::rules::Head;
use refusals::Refusal;
use rule_limits::{Limits, PlainLimits, limits_fit};
use watch_places::watch_rules::{CHANNELS, POSTS, Settled, Stepped, Table};
use watch_places::{is_channel, is_post, place, post_at, put, put_entry};

// The table with no post set up.
// Kept (4): tried as `Table::default()`: what `free_post` proves field by field of one post's default stood open of each post in the array.
pub fn empty() -> Table
    ensures by_record { result ≡ empty_table }
    ensures by_history { Kept result [] }
{
    Table {
        posts: [post::free_post(); POSTS],
        index: [0; CHANNELS],
        refused: 0,
    }
}

// Whether a place is a post's, and another's than the post i.
fn other(at: usize, i: u32) -> bool
    ensures { result ≡ is_other at i }
{
    at < POSTS && at != i as usize
}

// The table whose index names no post for the channel that a head held, where it was set up.
fn forgotten(t: Table, h: Head) -> Table
    ensures { result ≡ unnamed t h }
{
    if h.is_used() {
        put_entry(t, h.channel, 0)
    } else {
        t
    }
}

// The table with a post set up anew: the index names it for its channel, and no longer for the one that it held before.
fn seated(t: Table, post: u32, channel: u32, limits: PlainLimits) -> Table
    requires { post < post_count }
    ensures { result ≡ seat t post channel (fresh_post channel limits) }
{
    let i = post as usize;
    let h = t.posts[i].head;
    let u = put(t, i, post::fresh_post(channel, limits));
    let v = forgotten(u, h);
    put_entry(v, channel, post + 1)
}

// Whether a post may be set up so, where the post at a place, if it is one, holds the channel: "Set-up gives 9 to 12", which are told in that order.
fn may_set_up(held: usize, post: u32, channel: u32, limits: PlainLimits) -> Result<(), Refusal>
    ensures { (t : Table) → held ≡ place_of t.posts channel → MatchResult result
        (λ _. (set_up_of t post channel limits ≡ settled (seat t post channel (fresh_post channel limits))) × (post < post_count))
        (λ w. set_up_of t post channel limits ≡ unsettled t w) }
{
    if !is_post(post) {
        return Err(Refusal::NoSuchPost);
    }
    if !is_channel(channel) {
        return Err(Refusal::NoSuchChannel);
    }
    if other(held, post) {
        return Err(Refusal::ChannelTaken);
    }
    if !limits_fit(limits) {
        return Err(Refusal::LimitOutside);
    }
    Ok(())
}

// The sensor kind comes as a number, and one that is no kind is a limit outside its range.
pub fn set_up_plain(t: Table, post: u32, channel: u32, limits: PlainLimits) -> Settled
    ensures by_record { result ≡ set_up_of t post channel limits }
    ensures by_history { (s : Steps) → Kept t s → SetUpRight s post channel limits result }
{
    // By an early return: as the two arms of a `match` a set-up copied the table once more, and took 1.3 to 1.6 times as long.
    if let Err(w) = may_set_up(place(t, channel), post, channel, limits) {
        return Stepped {
            table: t,
            answer: Err(w),
        };
    }
    let table = seated(t, post, channel, limits);
    Stepped {
        table,
        answer: Ok(()),
    }
}

// The same with the sensor kind by its name.
pub fn set_up(t: Table, post: u32, channel: u32, limits: Limits) -> Settled
    ensures by_record { result ≡ set_up_of t post channel (plain_of limits) }
    ensures by_history { (s : Steps) → Kept t s → SetUpRight s post channel (plain_of limits) result }
{
    set_up_plain(t, post, channel, PlainLimits::from(limits))
}

// "Release and looking up a record give 9 or 14."
pub fn release(t: Table, post: u32) -> Settled
    ensures by_record { result ≡ release_of t post }
    ensures by_history { (s : Steps) → Kept t s → ReleaseRight s post result }
{
    match post_at(&t, post) {
        Ok(p) => {
            let h = p.head;
            let u = put(t, post as usize, post::free_post());
            Stepped {
                table: forgotten(u, h),
                answer: Ok(()),
            }
        }
        Err(w) => Stepped {
            table: t,
            answer: Err(w),
        },
    }
}

// The places of the table: which numbers are posts, who holds a channel, and what is stored in a place. For what feeds, sets up and releases posts.
#![tactic(auto)]

ghost use Rattle.std.specs.Prelude.{◌≡◌, ◌≤◌, ◌<◌, ◌%◌, ◌&&◌, get_or, MatchResult};
ghost use Rattle.watch_places.specs.Look.{found};
ghost use Rattle.watch_rules.specs.rules.specs.After.{stored};
ghost use Rattle.watch_rules.specs.Table.{post_count, channel_count, is_post, is_channel, post_in, not_found, look_up_of, settled, unsettled, unseat, release_of, holds, place_of, place_named, some_place, put_in, with_entry};

// The crates among these are passed on to those above, which name them through this one.
use refusals::Refusal;
pub use watch_rules;
use watch_rules::rules::{Head, PLACES, Post, Slot};
use watch_rules::{CHANNELS, POSTS, Table};

pub fn is_post(i: u32) -> bool
    ensures { result ≡ is_post i }
{
    (i as usize) < POSTS
}

pub fn is_channel(channel: u32) -> bool
    ensures { result ≡ is_channel channel }
{
    (channel as usize) < CHANNELS
}

// The post of a number, where it is set up. "Release and looking up a record give 9 or 14", which are told in that order.
#[tactic(auto, unfolding(watch_rules::specs::Table::look_up_of, watch_rules::specs::Table::release_of))]
pub fn post_at(t: &Table, post: u32) -> Result<&Post, Refusal>
    ensures { MatchResult result
        (λ p. (look_up_of t.now post ≡ found (post_in t.now post))
        × (p.now ≡ post_in t.now post)
        × (release_of t.now post ≡ settled (unseat t.now post)))
        (λ w. (look_up_of t.now post ≡ not_found w) × (release_of t.now post ≡ unsettled t.now w)) }
{
    let p = t.posts.get(post as usize).ok_or(Refusal::NoSuchPost)?;
    if !p.head.is_used() {
        return Err(Refusal::NotSetUp);
    }
    Ok(p)
}

// Kept (4): with two tests for each post a tick by the search took 1.7 times plain C (docs/PERFORMANCE.md), so that both numbers are asked for in one.
#[tactic(auto, using(crate::proofs::Held::held_one))]
pub fn holds_channel(h: Head, channel: u32) -> bool
    ensures { result ≡ holds h channel }
{
    u64::from(h.used) + u64::from(h.channel) * 4294967296 == 1 + u64::from(channel) * 4294967296
}

// Whether a post holds the channel; a number that is no channel is held by none.
pub fn is_held(h: Head, channel: u32) -> bool
    ensures { result ≡ (is_channel channel && holds h channel) }
{
    is_channel(channel) && holds_channel(h, channel)
}

// The post that holds the channel by a search over the posts, which the index is proved equal to. POSTS where none does.
// Kept (1): a number and no `Option`: docs/PROMISES.md names it with the clause on `place_of`, which the theorems on the index have so (`index_searched`).
// Kept (3): a loop whose break yields the place is the form that paper 01 asks for here.
pub fn place(t: Table, channel: u32) -> usize
    ensures { (result ≡ place_of t.posts channel) × (result ≤ post_count) }
{
    let mut i: usize = 0;
    loop {
        if POSTS <= i {
            break i;
        }
        if holds_channel(t.posts[i].head, channel) {
            break i;
        }
        i += 1;
    }
}

// The post that an entry of the index names, and some post where it names none. Without a choice, so that nothing waits for it.
#[tactic(auto, unfolding(watch_rules::specs::Table::place_named))]
pub fn place_named(name: u32) -> usize
    ensures { (result ≡ place_named name) × (result < post_count) }
{
    (name as usize + (POSTS - 1)) % POSTS
}

// The post that an index names for a channel; a number that is no channel stands for one that is.
pub fn indexed_place(index: &[u32; CHANNELS], channel: u32) -> usize
    ensures { (result ≡ place_named (get_or index.now (channel % channel_count) 0)) × (result < post_count) }
{
    place_named(index[channel as usize % CHANNELS])
}

// 01: "A frame or tick goes to the post that holds its channel." The post that the index names, and some post where it names none: who steps what stands
// there asks whether the number is a channel, and whether the post holds it.
#[tactic(auto, unfolding(watch_rules::specs::Table::some_place))]
pub fn some_place(t: Table, channel: u32) -> usize
    ensures { (result ≡ some_place t channel) × (result < post_count) }
{
    indexed_place(&t.index, channel)
}

// The table with a post in a place. A number that is no place leaves it as it was.
// Kept (6): by `get_mut` the proof did not close here, in `put_entry` and in `store`: that the list with one element set is the one that `get_mut` left.
pub fn put(mut t: Table, at: usize, p: Post) -> Table
    ensures { result ≡ put_in t at p }
{
    if at < POSTS {
        t.posts[at] = p;
    }
    t
}

// The table with an entry in the index. A number that is no channel leaves it as it was.
pub fn put_entry(mut t: Table, channel: u32, name: u32) -> Table
    ensures { result ≡ with_entry t channel name }
{
    if is_channel(channel) {
        t.index[channel as usize] = name;
    }
    t
}

// The post with a head, and with a frame in a place. A number that is no place leaves the latest frames as they were.
pub fn store(mut p: Post, h: Head, at: usize, n: Slot) -> Post
    ensures { result ≡ stored p h at n }
{
    p.head = h;
    if at < PLACES {
        p.latest[at] = n;
    }
    p
}

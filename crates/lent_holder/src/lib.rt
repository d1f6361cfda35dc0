// The post that holds a channel over the C interface, by the index: to whom a frame or tick on it goes. The lent table is only read.
// For C callers; a caller in Rattle asks `watch_places::some_place`, or searches by `watch_places::place`.
// Kept (1): the C interface hands the answer out as one word, a number or a refusal (02); below the entry they are a `Result`.
#![tactic(auto)]

ghost use Rattle.std.specs.Prelude.{◌≡◌, ◌<◌};
ghost use Rattle.watch_rules.specs.Table.{post_count};
ghost use Rattle.plain_words.specs.Words.{outcome_word, outcome_of};
ghost use Rattle.lent_holder.specs.Holder.{holder_at, holder_word};

use plain_words::answer_word;
use refusals::Refusal;
use rules::Head;
use watch_places::{indexed_place, is_held};
use watch_rules::Table;

// 01: "1: channel above 31, or held by no post". The index names place i for the channel, and h is the head of the post there.
#[tactic(auto, unfolding(crate::specs::Holder::holder_at))]
fn holder_at(h: Head, i: usize, channel: u32) -> Result<u32, Refusal>
    requires { i < post_count }
    ensures { outcome_word (outcome_of result) ≡ holder_at h i channel }
{
    if !is_held(h, channel) {
        return Err(Refusal::ChannelFree);
    }
    Ok(i as u32)
}

// One entry of the index and one head are read, so that no table is copied.
#[unsafe(no_mangle)]
pub extern "C" fn rokemaipu_holder(t: &Table, channel: u32) -> u32
    ensures { result ≡ holder_word t.now channel }
{
    let i = indexed_place(&t.index, channel);
    let h = t.posts[i].head;
    answer_word(holder_at(h, i, channel))
}

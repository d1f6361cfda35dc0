// Looking a post's record up, with the two promises of `watch_feed`, and how much was refused. For users of the library, through `watch`.
#![tactic(auto)]

ghost use Rattle.std.specs.Prelude.{List, ◌≡◌, min};
ghost use Rattle.post.specs.rules.specs.Counts.{largest};
ghost use Rattle.watch_places.specs.watch_rules.specs.Run.{Request, run, refused_ever};
ghost use Rattle.watch_places.specs.watch_rules.specs.Steps.{Steps, Kept, look_up01};
ghost use Rattle.watch_places.specs.watch_rules.specs.Table.{look_up_of, no_record};

use post::rules::Record;
use watch_places::post_at;
use watch_places::watch_rules::{LookedUp, Table};

fn no_record() -> Record
    ensures { result ≡ no_record }
{
    post_record::of_post(post::free_post())
}

pub fn look_up(t: Table, post: u32) -> LookedUp
    ensures by_record { result ≡ look_up_of t post }
    ensures by_history { (s : Steps) → Kept t s → result ≡ look_up01 s post }
{
    match post_at(&t, post) {
        Ok(p) => LookedUp {
            answer: Ok(()),
            shown: post_record::of_post(*p),
        },
        Err(w) => LookedUp {
            answer: Err(w),
            shown: no_record(),
        },
    }
}

// The frames and ticks refused since the table was made (02, Req 08). In a table of the caller's own making every larger number counts as the largest.
// Kept (1): no refusal, but a count of them.
pub fn refused(t: Table) -> u32
    ensures by_record { result ≡ min t.refused largest }
    ensures by_history { (rs : List Request) → t ≡ run rs → result ≡ min (refused_ever rs) largest }
{
    u32::try_from(t.refused).unwrap_or(u32::MAX)
}

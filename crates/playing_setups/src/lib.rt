// A replay's start (02, Req 05): the table is set up from a short list of posts, before the first record. For every program that plays a log. Every public
// function takes any input.
#![tactic(auto)]

ghost use Rattle.std.specs.Prelude.{◌≡◌};
ghost use Rattle.watch_rules.specs.Table.{set_up_of};
ghost use Rattle.playing_nights.specs.Call.{fresh, prepared_by, set_up_in};

use playing_nights::{Course, Prepared, Replay, Replayed, Unprepared};
use rule_limits::PlainLimits;

// No post is set up, and no record was fed.
pub fn start() -> Replay
    ensures { result ≡ fresh }
{
    Replay {
        table: watch::empty(),
        count: 0,
        course: Course::SetUps,
    }
}

// Kept (5): `set_up_in r post channel limits` of `set_up` (docs/PROMISES.md) has the post and the channel apart from the limits, as `watch::set_up_plain` has.
fn settle(r: Replay, post: u32, channel: u32, limits: PlainLimits) -> Prepared
    ensures { result ≡ prepared_by r.count (set_up_of r.table post channel limits) }
{
    let s = watch::set_up_plain(r.table, post, channel, limits);
    let (course, answer) = match s.answer {
        Ok(()) => (Course::SetUps, Ok(())),
        Err(w) => (Course::Refused(w), Err(Unprepared::Refused(w))),
    };
    Replayed {
        replay: Replay {
            table: s.table,
            course,
            ..r
        },
        answer,
    }
}

// 02: "Set-ups come before the first record; a refused one ends the replay with its number and no line."
pub fn set_up(r: Replay, post: u32, channel: u32, limits: PlainLimits) -> Prepared
    ensures { result ≡ set_up_in r post channel limits }
{
    match r.course {
        Course::SetUps => settle(r, post, channel, limits),
        Course::Records => Replayed {
            replay: r,
            answer: Err(Unprepared::Late),
        },
        Course::Refused(w) => Replayed {
            replay: r,
            answer: Err(Unprepared::Refused(w)),
        },
    }
}

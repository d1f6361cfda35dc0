// A replay of a night log in plain numbers, by value and with its answers as words: `playing_setups` and `playing_calls`, for `lent_replay`, which lends it to
// C. Every public function takes any input.
// Kept (2): functions that are alike by their text alone: numbers of other things, and conversions there and back.
#![tactic(auto)]

ghost use Rattle.std.specs.Prelude.{◌≡◌, [], ◌∷◌};
ghost use Rattle.playing_words.specs.Plain.{course_of, course_word, refusal_at, replay_of, plain_of, prepared_word, start_by, set_up_by, told_by, next_left, line_by, line_left, next_after};

use plain_words::refusal_word;
use playing_nights::{Course, Next, Played, Replay, Unprepared};
use refusals::Refusal;
use rule_limits::PlainLimits;
use watch_rules::Table;

// A replay as plain numbers: its table, the records fed so far, and its course: 0 where set-ups may come, 1 where records were fed, the word of the refusal
// where a set-up was refused. Zeroed memory is a replay that was just started.
#[repr(C)]
#[derive(Clone, Copy)]
pub struct PlainReplay {
    pub table: Table,
    pub count: u64,
    pub course: u64,
}

#[derive(Clone, Copy)]
pub struct LentReplay {
    pub replay: PlainReplay,
    pub answer: u32,
}

// ---- courses and answers as numbers

// The refusals of a set-up.
// Kept (4): the words stand in a replay that C keeps; a number that is none of the four is the last of them.
fn refusal_at(n: u64) -> Refusal
    ensures { result ≡ refusal_at n }
{
    match n {
        65545 => Refusal::NoSuchPost,
        65546 => Refusal::NoSuchChannel,
        65547 => Refusal::ChannelTaken,
        _ => Refusal::LimitOutside,
    }
}

// Kept (4): `u64` and `Course` are both other crates' types, so that no impl of `From` between them may stand here; the number stands in C's memory.
fn course_of(n: u64) -> Course
    ensures { result ≡ course_of n }
{
    match n {
        0 => Course::SetUps,
        1 => Course::Records,
        _ => Course::Refused(refusal_at(n)),
    }
}

// Kept (4): likewise, the other way.
fn course_word(c: Course) -> u64
    ensures { result ≡ course_word c }
{
    match c {
        Course::SetUps => 0,
        Course::Records => 1,
        Course::Refused(w) => u64::from(refusal_word(w)),
    }
}

impl From<PlainReplay> for Replay {
    ghost from_gives = { λ p r. r ≡ replay_of p };

    fn from(r: PlainReplay) -> Replay {
        Replay {
            table: r.table,
            count: r.count,
            course: course_of(r.course),
        }
    }
}

impl From<Replay> for PlainReplay {
    ghost from_gives = { λ r p. p ≡ plain_of r };

    fn from(r: Replay) -> PlainReplay {
        PlainReplay {
            table: r.table,
            count: r.count,
            course: course_word(r.course),
        }
    }
}

// Kept (1, 4): C's answer is one word of 32 bits.
fn prepared_word(a: Result<(), Unprepared>) -> u32
    ensures { result ≡ prepared_word a }
{
    match a {
        Ok(()) => 0,
        Err(Unprepared::Refused(w)) => refusal_word(w),
        Err(Unprepared::Late) => 1,
    }
}

// ---- by value, with words

pub fn started(r: PlainReplay) -> LentReplay
    ensures { result ≡ start_by r }
{
    LentReplay {
        replay: PlainReplay::from(playing_setups::start()),
        answer: 0,
    }
}

pub fn settled(r: PlainReplay, post: u32, channel: u32, limits: PlainLimits) -> LentReplay
    ensures { result ≡ set_up_by r post channel limits.voltage limits.charge limits.discharge limits.silence limits.sensor limits.interface }
{
    let p = playing_setups::set_up(Replay::from(r), post, channel, limits);
    LentReplay {
        replay: PlainReplay::from(p.replay),
        answer: prepared_word(p.answer),
    }
}

// What a call of `next_line` answered: a line leaves the replay that it made, and the byte where the next record begins; every other answer leaves all as it
// was.
fn told(r: PlainReplay, x: Next, place: &mut u64) -> LentReplay
    ensures { (result ≡ told_by r x.replay x.answer) × (place.new ∷ [] ≡ next_left x.answer (place.old ∷ [])) }
{
    let answer = match x.answer {
        Played::Line { bytes, next: n } => {
            *place = n as u64;
            return LentReplay {
                replay: PlainReplay::from(x.replay),
                answer: (bytes % 4294967296) as u32,
            };
        }
        Played::End => 0,
        Played::Cut(_) => 1,
        Played::Bad(w, _) | Played::SetUp(w) => refusal_word(w),
        Played::Short => refusal_word(Refusal::ShortBuffer),
    };
    LentReplay { replay: r, answer }
}

// 02: "a line buffer under 40 bytes gets 8 first"; and so does a call without a place for the next byte.
pub fn line_of(
    r: PlainReplay,
    log: &[u8],
    at: usize,
    line: &mut [u8],
    next: &mut [u64],
) -> LentReplay
    ensures { (result ≡ line_by r log.now at line.old next.old)
        × (line.new ≡ line_left r log.now at line.old next.old)
        × (next.new ≡ next_after r log.now at line.old next.old) }
{
    let Some(place) = next.first_mut() else {
        return LentReplay {
            replay: r,
            answer: refusal_word(Refusal::ShortBuffer),
        };
    };
    let x = playing_calls::next_line(Replay::from(r), log, at, line);
    told(r, x, place)
}

// The record that a post hands out: messages instead of payload numbers. For whoever looks a post up.
#![tactic(auto)]

ghost use Rattle.std.specs.Prelude.{get_or, map, ◌≡◌, ◌+◌};
ghost use Rattle.rules.specs.History.{count_from};
ghost use Rattle.rules.specs.Record.{place_count, dated_at, unknown};
ghost use Rattle.rules.specs.Right.{RecordRight};
ghost use Rattle.rules.specs.After.{dated_in, part_in, kept_latest, last_in, finding_count, post_record};

use page_table::Interface;
use post_ages::{age, received};
use rule_limits::Limits;
use rules::{
    COUNTS, Dated, FINDINGS, Head, KEPT, OpenSession, PLACES, Post, Record, Session, Slot,
    older_build,
};
use std::array::from_fn;

// A frame by its message: of documents 000 and 004, or of 001.
#[tactic(auto, unfolding(rules::specs::Record::dated_at))]
fn dated_at(time: u32, ms: u32, kind: usize, raw: u64) -> Dated
    ensures { result ≡ dated_at time ms kind raw }
{
    if page_rows::is_on(Interface::Newer, kind) {
        Dated::At {
            time,
            age: ms,
            message: message_build::message_of(kind, raw),
        }
    } else {
        Dated::OlderAt {
            time,
            age: ms,
            message: older_build::message_of(kind, raw),
        }
    }
}

fn dated(now: u64, l: Slot) -> Option<Dated>
    ensures { result ≡ dated_in now l }
{
    l.is_known().then(|| dated_at(received(l.time), age(now, l.time), l.kind as usize, l.raw))
}

fn part(now: u64, s: Session) -> Option<OpenSession>
    ensures { result ≡ part_in now s }
{
    s.is_open().then(|| {
        let n = message_parts::session_in(s.first);
        OpenSession {
            since: received(s.since),
            age: age(now, s.since),
            protocol: n.protocol,
            plug: n.plug,
        }
    })
}

// What it keeps; 01: "With no session open all of the session's part is none."
fn kept_of(now: u64, s: Session) -> [Option<Dated>; KEPT]
    ensures { result ≡ kept_latest now s }
{
    if !s.is_open() {
        return [None; KEPT];
    }
    s.kept.map(|l| dated(now, l))
}

fn last_time(h: Head) -> Option<u32>
    ensures { result ≡ last_in h }
{
    h.is_heard().then_some(received(h.time))
}

// The latest frame of each place, by its message.
fn messages_of(now: u64, slots: [Slot; PLACES]) -> [Option<Dated>; PLACES]
    ensures { result ≡ map (λ j. dated_in now (get_or slots j unknown)) (count_from 0 place_count) }
{
    slots.map(|l| dated(now, l))
}

// The tallies, finding 1 first.
// Kept (3): tried by a pattern, `[_, tallies @ ..]`: the checker does not cover a part of an array that is bound so.
fn tallies_of(counts: [u32; COUNTS]) -> [u32; FINDINGS]
    ensures { result ≡ map (λ k. get_or counts (k + 1) 0) (count_from 0 finding_count) }
{
    from_fn(|k| counts[k + 1])
}

pub fn of_post(p: Post) -> Record
    ensures by_record { result ≡ post_record p }
    ensures by_history { RecordRight p result }
{
    let h = p.head;
    Record {
        channel: h.channel,
        limits: Limits::from(h.limits),
        last: last_time(h),
        latest: messages_of(h.time, p.latest),
        session: part(h.time, h.session),
        kept: kept_of(h.time, h.session),
        accepted: h.counts[0],
        tallies: tallies_of(h.counts),
    }
}

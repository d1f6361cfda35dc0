// A post's record as one line, the table's count of what was refused, and its index: the steps `record`, `refused` and `index`, for the desk alone.
// Kept (5): a step reads its line and the table, and writes on the sheet, and each of the three has another owner: as a method of one it would be handed the
// other two all the same.
#![tactic(auto)]

use desk_buffers::Fields;
use desk_values::message;
use desk_values::message::Listed;
use message_types::labels::Label;
use message_types::{BATTERY, CONTROLLER, CUI, ID, OCPP, SAFETY_CONTROL, SEQUENCE, STATUS};
use notation_answers::answer;
use notation_answers::answer::named;
use page_table::Interface;
use rule_limits::Limits;
use rule_pages::place_by;
use rules::{
    CONTROL_PLACE, Dated, FINDINGS, OpenSession, PLACES, Record, STATUS_PLACE, STOP_PLACE,
};
use text_pen::Sheet;
use watch_rules::Table;

// `TIME+AGE`, behind its name
fn put_time(sheet: &mut Sheet, name: &[u8], time: u32, age: u32) {
    named(sheet, name, time);
    named(sheet, b"+", age);
}

// `MSG@T`
fn put_at<M: Listed>(sheet: &mut Sheet, m: M, time: u32, age: u32) {
    message::put(sheet, m);
    put_time(sheet, b"@", time, age);
}

// `MSG@T`, or `-`
fn put_dated(sheet: &mut Sheet, d: Option<Dated>) {
    match d {
        None => sheet.put(b"-"),
        Some(Dated::At { time, age, message }) => put_at(sheet, message, time, age),
        Some(Dated::OlderAt { time, age, message }) => put_at(sheet, message, time, age),
    }
}

fn put_limits(sheet: &mut Sheet, l: Limits) {
    named(sheet, b" volt=", l.voltage);
    named(sheet, b" chg=", l.charge);
    named(sheet, b" dis=", l.discharge);
    named(sheet, b" w=", l.silence);
    named(sheet, b" sensor=", u32::from(l.sensor));
    named(sheet, b" iface=", u32::from(l.interface));
}

fn put_last(sheet: &mut Sheet, last: Option<u32>) {
    match last {
        None => sheet.put(b" last=-"),
        Some(time) => named(sheet, b" last=", time),
    }
}

fn put_session(sheet: &mut Sheet, session: Option<OpenSession>) {
    match session {
        None => sheet.put(b" open=0 since=- first=-"),
        Some(s) => {
            put_time(sheet, b" open=1 since=", s.since, s.age);
            named(sheet, b" first=", u32::from(s.protocol.number()));
            named(sheet, b",", u32::from(s.plug.number()));
        }
    }
}

// A message that is kept beside the latest ones, behind its name.
fn put_kept(sheet: &mut Sheet, name: &[u8], kept: Option<Dated>) {
    sheet.put(name);
    put_dated(sheet, kept);
}

// The tallies, finding 1 first.
fn put_tallies(sheet: &mut Sheet, tallies: &[u32; FINDINGS]) {
    named(sheet, b" tally=", tallies[0]);
    for &n in &tallies[1..] {
        named(sheet, b",", n);
    }
}

// desk.md: "standard identifiers first, then extended, each ascending by identifier". The kinds in that order, each part from one kind on, before another:
// the standard ones, which are 004's alone, and then the extended ones. The identifiers of 001 ascend by kind; those of 000 that were added stand between its
// others.
const NEWER: [(usize, usize); 7] = [
    (SAFETY_CONTROL, older_types::STATUS),
    (STATUS, CONTROLLER),
    (SEQUENCE, BATTERY),
    (CONTROLLER, ID),
    (BATTERY, CUI),
    (ID, SAFETY_CONTROL),
    (CUI, OCPP + 1),
];

const OLDER: [(usize, usize); 2] = [
    (SAFETY_CONTROL, older_types::STATUS),
    (older_types::STATUS, SEQUENCE),
];

// The latest messages of these kinds, joined by `;`, or `-` where none is known.
fn put_latest(sheet: &mut Sheet, latest: &[Option<Dated>; PLACES], parts: &[(usize, usize)]) {
    // Kept (1, 3): tried as one chain by `flat_map` and `filter_map`: with `peekable` the goal of `peek` did not close, and without it the check did not come
    // to its end.
    let mut some = false;
    for &(first, end) in parts {
        for d in (first..end).filter_map(|kind| latest.get(place_by(kind)).copied().flatten()) {
            if some {
                sheet.put(b";");
            }
            put_dated(sheet, Some(d));
            some = true;
        }
    }
    if !some {
        sheet.put(b"-");
    }
}

fn put(sheet: &mut Sheet, r: &Record) {
    named(sheet, b"K ch=", r.channel);
    put_limits(sheet, r.limits);
    put_last(sheet, r.last);
    put_session(sheet, r.session);
    put_kept(sheet, b" spms=", r.kept[STATUS_PLACE]);
    put_kept(sheet, b" sdpc=", r.kept[CONTROL_PLACE]);
    put_kept(sheet, b" sstop=", r.kept[STOP_PLACE]);
    named(sheet, b" n=", r.accepted);
    put_tallies(sheet, &r.tallies);
    sheet.put(b" latest=");
    match r.limits.interface {
        Interface::Newer => put_latest(sheet, &r.latest, &NEWER),
        Interface::Older => put_latest(sheet, &r.latest, &OLDER),
    }
    answer::line_end(sheet);
}

// `record POST`
pub fn show(table: &Table, fields: Fields, sheet: &mut Sheet) {
    let Some(post) = fields.last() else {
        answer::unknown(sheet);
        return;
    };
    let r = watch::look_up(*table, post);
    match r.answer {
        Ok(()) => put(sheet, &r.shown),
        Err(w) => answer::refusal(sheet, w),
    }
}

// `refused`, and nothing behind it
pub fn refused(table: &Table, fields: Fields, sheet: &mut Sheet) {
    if !fields.is_over() {
        answer::unknown(sheet);
        return;
    }
    named(sheet, b"N ", watch::refused(*table));
    answer::line_end(sheet);
}

// `index`, and nothing behind it: for each channel the post that holds it, or `-`
pub fn index(table: &Table, fields: Fields, sheet: &mut Sheet) {
    if !fields.is_over() {
        answer::unknown(sheet);
        return;
    }
    sheet.put(b"I");
    for &name in &table.index {
        match name.checked_sub(1) {
            None => sheet.put(b" -"),
            Some(post) => named(sheet, b" ", post),
        }
    }
    answer::line_end(sheet);
}

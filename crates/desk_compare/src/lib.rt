// The step `compare`, which compares two night logs, for the desk alone.
// Kept (6): no heap: of the lists' places ROOM1 and ROOM2 are lent, and of the channels' all.
#![tactic(auto)]

use compare_rules::{CHANNELS, Listed, Unlisted};
use desk_buffers::{Bench, Fields, front};
use notation_answers::answer;
use refusals::Refusal;
use text_pen::Sheet;

// A larger ROOM is too large for its place.
const MOST: usize = 2048;

// The first log's bytes are the first of the room, the second's those behind them; each list has so many places.
#[derive(Clone, Copy)]
struct Logs {
    first: usize,
    second: usize,
    room1: usize,
    room2: usize,
}

// `HEX HEX ROOM1 ROOM2`
fn taken(mut fields: Fields, room: &mut [u8]) -> Option<Logs> {
    let first = fields.bytes(room)?;
    let second = fields.bytes(room.get_mut(first..)?)?;
    let room1 = fields.number()? as usize;
    let room2 = fields.last()? as usize;
    Some(Logs {
        first,
        second,
        room1,
        room2,
    })
}

// With `,` before all but the first.
// Kept (2): tried as one loop over items and a closure that puts each: the loop then asks that there is a next item, that the items end and that the closure
// may be called, three premises for two loops of three lines; and on a public function, for `desk_record` and `desk_values`, no premise may stand.
fn put_joint(sheet: &mut Sheet, any: bool) {
    if any {
        sheet.put(b",");
    }
}

// Numbers joined by `,`, or `-`
fn put_numbers(sheet: &mut Sheet, numbers: &[u32]) {
    if numbers.is_empty() {
        sheet.put(b"-");
    }
    for (i, &n) in numbers.iter().enumerate() {
        put_joint(sheet, i > 0);
        text_written::put_decimal(sheet, u64::from(n));
    }
}

// `CHANNEL:PLACE` of each channel that differs, joined by `,`, or `-`; a channel that does not has the place 0.
fn put_channels(sheet: &mut Sheet, places: &[u32; CHANNELS]) {
    if places.iter().all(|&place| place == 0) {
        sheet.put(b"-");
    }
    let differing = places.iter().enumerate().filter(|(_, place)| **place != 0);
    for (i, (channel, &place)) in differing.enumerate() {
        put_joint(sheet, i > 0);
        text_written::put_decimal(sheet, channel as u64);
        answer::named(sheet, b":", place);
    }
}

// `R26:<side>:<byte>`, `R27:<side>` or `R28:<side>`
fn put_refused(sheet: &mut Sheet, u: Unlisted) {
    answer::named(sheet, b"R", refusals::refusal_number(u.why));
    answer::named(sheet, b":", u.side);
    if let Refusal::CompareLog = u.why {
        sheet.put(b":");
        text_written::put_decimal(sheet, u.at as u64);
    }
    answer::line_end(sheet);
}

// `A first=.. second=.. chan=..`, or the refusal
fn put_compared(
    sheet: &mut Sheet,
    c: Result<Listed, Unlisted>,
    first: &[u32],
    second: &[u32],
    places: &[u32; CHANNELS],
) {
    match c {
        Ok(n) => {
            sheet.put(b"A first=");
            put_numbers(sheet, front(first, n.first));
            sheet.put(b" second=");
            put_numbers(sheet, front(second, n.second));
            sheet.put(b" chan=");
            put_channels(sheet, places);
            answer::line_end(sheet);
        }
        Err(u) => put_refused(sheet, u),
    }
}

fn put_comparison(sheet: &mut Sheet, logs: Logs, room: &[u8]) {
    let a = front(room, logs.first);
    let b = front(&room[a.len()..], logs.second);
    let mut first = [0u32; MOST];
    let mut second = [0u32; MOST];
    let (Some(first), Some(second)) = (first.get_mut(..logs.room1), second.get_mut(..logs.room2))
    else {
        answer::unknown(sheet);
        return;
    };
    let mut places = [0u32; CHANNELS];
    let c = compare_logs::compare(a, b, first, second, &mut places);
    put_compared(sheet, c, first, second, &places);
}

// `compare HEX HEX ROOM1 ROOM2`
pub fn compare(fields: Fields, bench: Bench) {
    let Bench { room, output } = bench;
    match taken(fields, room) {
        None => answer::unknown(&mut output.sheet),
        Some(logs) => put_comparison(&mut output.sheet, logs, room),
    }
}

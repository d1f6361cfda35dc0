// The step `replay`, which replays a night log over a table of its own, for the desk alone.
#![tactic(auto)]

mod setups; // setups.rt: the set-ups of a replay

use desk_buffers::{Bench, Fields, Output, front};
use notation_answers::answer;
use notation_endings::ending;
use playing_nights::{Played, Replay};
use refusals::Refusal;
use text_pen::Sheet;

// `LINE|`, the line being without its line feed
fn put_line(sheet: &mut Sheet, line: &[u8]) {
    let e = text_lines::part_end(line, 0, b'\n');
    sheet.put(&line[..e]);
    sheet.put(b"|");
}

fn put_refused(sheet: &mut Sheet, why: Refusal) {
    ending::set_up(sheet, why);
    answer::line_end(sheet);
}

// What a call answered, and the byte where the next record begins; none behind the replay's end.
// Kept (7): each case has numbers of its own, and of each another text is put, which is what the cases of an enum are for.
fn put_answer(sheet: &mut Sheet, a: Played, line: &[u8]) -> Option<usize> {
    match a {
        Played::Line { next, .. } => {
            put_line(sheet, line);
            return Some(next);
        }
        Played::End => sheet.put(b"END\n"),
        Played::Cut(at) => desk_log::put_cut(sheet, at),
        Played::Bad(why, at) => desk_log::put_bad(sheet, why, at),
        Played::SetUp(why) => put_refused(sheet, why),
        Played::Short => answer::refusal(sheet, Refusal::ShortBuffer),
    }
    None
}

// `LINE|LINE|..|ENDING`: there are no more records than bytes, and one call more ends the replay. The answer may be longer than its line, so that
// what is written goes out between two records.
fn put_night(output: &mut Output, mut replay: Replay, log: &[u8]) {
    // Kept (6): no heap.
    let mut line = console::buffer();
    let mut at = 0;
    for _ in 0..=log.len() {
        output.flush_half();
        let n = playing_calls::next_line(replay, log, at, &mut line);
        replay = n.replay;
        let Some(next) = put_answer(&mut output.sheet, n.answer, &line) else {
            return;
        };
        at = next;
    }
}

// How many bytes at the front of the room are the log's, and the replay whose posts are set up.
fn asked(mut fields: Fields, room: &mut [u8]) -> Option<(usize, Replay)> {
    let length = fields.bytes(room)?;
    let set_up = setups::take_set_ups(fields)?;
    Some((length, set_up))
}

// `replay HEX SETUPS`
pub fn replay(fields: Fields, bench: Bench) {
    let Bench { room, output } = bench;
    match asked(fields, room) {
        None => answer::unknown(&mut output.sheet),
        Some((length, set_up)) => put_night(output, set_up, front(room, length)),
    }
}

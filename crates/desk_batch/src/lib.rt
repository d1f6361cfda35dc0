// The step `batch`, which feeds log records to the table in one call and shows every place for answers afterwards, for the desk alone.
#![tactic(auto)]

use desk_buffers::{Bench, Fields, Output, front};
// The crates among these are passed on to those above, which name them through this one.
pub use desk_table;
use desk_table::{Posts, Way};
use notation_answers::answer;
use text_pen::Sheet;

// desk.md: "the answers slice has ROOM places, each filled with 3735928559 before the call".
const UNTOUCHED: u32 = 3735928559;

// A larger ROOM is too large for its place. A batch has at most 1,024 records.
const MOST: usize = 2048;

// How many bytes at the front of the room are the records', and the places that are lent for their answers.
fn taken<'a>(
    mut fields: Fields,
    room: &mut [u8],
    places: &'a mut [u32],
) -> Option<(usize, &'a mut [u32])> {
    let length = fields.bytes(room)?;
    let lent = fields.last()? as usize;
    Some((length, places.get_mut(..lent)?))
}

// `A` or `R<n>`
fn put_outcome(sheet: &mut Sheet, word: u32) {
    match plain_words::answer_in(word) {
        Ok(_) => sheet.put(b"A"),
        Err(w) => answer::named(sheet, b"R", w.number),
    }
}

// The answer may be longer than its line, so that what is written goes out between two words.
fn put_words(output: &mut Output, answers: &[u32]) {
    for &n in answers {
        output.flush_half();
        answer::named(&mut output.sheet, b" ", n);
    }
    answer::line_end(&mut output.sheet);
}

fn feed<W: Way>(posts: &mut Posts<W>, records: &[u8], answers: &mut [u32], output: &mut Output) {
    let answer = posts.keep(posts.way.batch(posts.table, records, answers));
    put_outcome(&mut output.sheet, answer);
    put_words(output, answers);
}

// `batch HEX ROOM`
pub fn batch<W: Way>(posts: &mut Posts<W>, fields: Fields, bench: Bench) {
    let Bench { room, output } = bench;
    // Kept (6): no heap: of so many places ROOM are lent.
    let mut places = [UNTOUCHED; MOST];
    match taken(fields, room, &mut places) {
        None => answer::unknown(&mut output.sheet),
        Some((length, answers)) => feed(posts, front(room, length), answers, output),
    }
}

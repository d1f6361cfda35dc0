// The channels that differ, a line for each, with both records at the first place where it does: `channel C place P: first N LINE; second N LINE`, and `-` for
// the one that has ended.
use crate::kept::Kept;
use crate::line;
use compare_rules::{CHANNELS, MOST};
use log_read::Records;
use notation_answers::answer;
use program_parts::paper::Paper;
use text_pen::Sheet;

// Which kept record stands at that place of its channel: the channel's places are counted from 1, the records from 0.
fn kept_at(log: &[u8], channel: u32, place: u32) -> Option<usize> {
    let before = place.checked_sub(1)?;
    let (i, _) = Records::new(log)
        .take(MOST)
        .enumerate()
        .filter(|x| x.1.channel == channel)
        .nth(before as usize)?;
    Some(i)
}

fn put_side(sheet: &mut Sheet, side: &[u8], kept: &Kept, channel: u32, place: u32) {
    sheet.put(side);
    match kept_at(kept.log(), channel, place) {
        Some(i) => line::put_numbered(sheet, kept, i),
        None => sheet.put(b" -"),
    }
}

fn put_one(paper: &mut Paper, channel: u32, place: u32, x: &Kept, y: &Kept) {
    paper.make_room();
    let sheet = &mut paper.sheet;
    answer::named(sheet, b"channel ", channel);
    answer::named(sheet, b" place ", place);
    sheet.put(b": ");
    put_side(sheet, b"first", x, channel, place);
    put_side(sheet, b"; second", y, channel, place);
    answer::line_end(sheet);
}

// A channel that does not differ has the place 0. Whether one differs.
pub fn put_all(paper: &mut Paper, places: &[u32; CHANNELS], x: &Kept, y: &Kept) -> bool {
    for (channel, &place) in places.iter().enumerate() {
        if place > 0 {
            put_one(paper, channel as u32, place, x, y);
        }
    }
    places.iter().any(|&place| place > 0)
}

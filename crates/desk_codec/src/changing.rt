// The steps `change` and `change1`.
use desk_buffers::{Bench, Fields, front};
use notation_answers::answer;
use page_table::Interface;
use refusals::Refusal;
use text_pen::Sheet;

// What a frame's change answered, and how many bytes at the front of the room are the frame's.
#[derive(Clone, Copy)]
struct Changed {
    answer: Result<(usize, u64), Refusal>,
    length: usize,
}

// `ID x|s HEX START RAW`
fn judged(iface: Interface, mut fields: Fields, room: &mut [u8]) -> Option<Changed> {
    let head = fields.head()?;
    let length = fields.bytes(room)?;
    let start = fields.number()?;
    let raw = text_numbers::signed(fields.rest()?)?;
    let bytes = room.get_mut(..length)?;
    let answer = page_change::change_on(iface, head.id, head.extended, bytes, start, raw);
    Some(Changed { answer, length })
}

// `change ID x|s HEX START RAW`, `change1 ..`
// Kept (5): whose pages a step goes by is no part of its line, nor of where it works.
pub fn change(iface: Interface, fields: Fields, bench: Bench) {
    let Bench { room, output } = bench;
    match judged(iface, fields, room) {
        None => answer::unknown(&mut output.sheet),
        Some(c) => put_changed(&mut output.sheet, c.answer, front(room, c.length)),
    }
}

fn put_changed(sheet: &mut Sheet, answer: Result<(usize, u64), Refusal>, bytes: &[u8]) {
    match answer {
        Ok(_) => {
            sheet.put(b"A");
            answer::bytes_end(sheet, bytes);
        }
        Err(w) => answer::refusal_bytes(sheet, w, bytes),
    }
}

// The steps `read` and `read1`.
use desk_buffers::{Bench, Fields, front};
use desk_values::message;
use desk_values::message::Listed;
use notation_answers::answer;
use notation_read::fields::Head;
use page_table::Interface;
use refusals::Refusal;
use text_pen::Sheet;

// `ID x|s HEX`: how many bytes at the front of the room are the frame's.
fn read_line(mut fields: Fields, room: &mut [u8]) -> Option<(Head, usize)> {
    let head = fields.head()?;
    let length = fields.last_bytes(room)?;
    Some((head, length))
}

// `read ID x|s HEX`, `read1 ..`
// Kept (5): whose pages a step goes by is no part of its line, nor of where it works.
pub fn read(iface: Interface, fields: Fields, bench: Bench) {
    let Bench { room, output } = bench;
    match read_line(fields, room) {
        None => answer::unknown(&mut output.sheet),
        Some((head, length)) => put_frame(&mut output.sheet, iface, head, front(room, length)),
    }
}

fn put_frame(sheet: &mut Sheet, iface: Interface, head: Head, bytes: &[u8]) {
    match iface {
        Interface::Newer => put_reading(sheet, messages::read(head.id, head.extended, bytes)),
        Interface::Older => put_reading(sheet, older::read(head.id, head.extended, bytes)),
    }
}

// `A` and the message, or the refusal
fn put_reading<M: Listed>(sheet: &mut Sheet, r: Result<M, Refusal>) {
    match r {
        Ok(m) => {
            sheet.put(b"A ");
            message::put(sheet, m);
            answer::line_end(sheet);
        }
        Err(w) => answer::refusal(sheet, w),
    }
}

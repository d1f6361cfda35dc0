// The step `logw`: a record's bytes.
use desk_buffers::{Bench, Fields, front};
use notation_answers::answer;
use refusals::Refusal;
use text_pen::Sheet;

// A payload that the log can hold has eight bytes at most: of a longer one nine are enough to be refused.
const ENOUGH: usize = 9;

// What the log answered, and how many bytes at the front of the room are the lent buffer's.
#[derive(Clone, Copy)]
struct Logged {
    answer: Result<usize, Refusal>,
    size: usize,
}

// `logw t TIME CHANNEL HEX`, `logw f TIME CHANNEL ID x|s HEX HEX`
pub fn write(fields: Fields, bench: Bench) {
    let Bench { room, output } = bench;
    match written(fields, room) {
        None => answer::unknown(&mut output.sheet),
        Some(w) => put_logged(&mut output.sheet, w.answer, front(room, w.size)),
    }
}

fn written(mut fields: Fields, room: &mut [u8]) -> Option<Logged> {
    match fields.word()? {
        b"t" => tick(fields, room),
        b"f" => frame(fields, room),
        _ => None,
    }
}

// `TIME CHANNEL HEX`
fn tick(mut fields: Fields, room: &mut [u8]) -> Option<Logged> {
    let time = fields.number()?;
    let channel = fields.number()?;
    let size = fields.last_bytes(room)?;
    let answer = log_write::write_tick(time, channel, room.get_mut(..size)?);
    Some(Logged { answer, size })
}

// The first bytes, or as many as are enough.
// Kept (6): no heap: the bytes are kept while the room takes the lent buffer's.
fn body_of(bytes: &[u8]) -> [u8; ENOUGH] {
    let mut body = [0u8; ENOUGH];
    let kept = front(bytes, ENOUGH);
    body[..kept.len()].copy_from_slice(kept);
    body
}

// `TIME CHANNEL ID x|s HEX HEX`
fn frame(mut fields: Fields, room: &mut [u8]) -> Option<Logged> {
    let time = fields.number()?;
    let channel = fields.number()?;
    let head = fields.head()?;
    let n = fields.bytes(room)?;
    let body = body_of(front(room, n));
    let size = fields.last_bytes(room)?;
    let answer = log_write::write_frame(
        time,
        channel,
        head.id,
        head.extended,
        front(&body, n),
        room.get_mut(..size)?,
    );
    Some(Logged { answer, size })
}

// `A LEN HEX`, or the refusal, with the buffer afterwards
fn put_logged(sheet: &mut Sheet, answer: Result<usize, Refusal>, buf: &[u8]) {
    match answer {
        Ok(n) => {
            sheet.put(b"A ");
            text_written::put_decimal(sheet, n as u64);
            answer::bytes_end(sheet, buf);
        }
        Err(w) => answer::refusal_bytes(sheet, w, buf),
    }
}

// A line of the input and its record.
use console::front;
use notation_read::heard;
use notation_read::heard::{Frame, Tick};
use refusals::Refusal;

// Why a line has no record: it is no frame or tick, or the library refuses it.
// Kept (1): the error of a Result.
#[derive(Clone, Copy)]
pub enum LineError {
    NoRecord,
    Refused(Refusal),
}

impl From<Refusal> for LineError {
    fn from(why: Refusal) -> Self {
        LineError::Refused(why)
    }
}

// What a line tells that was heard.
#[derive(Clone, Copy)]
enum Heard {
    Frame(Frame),
    Tick(Tick),
}

fn heard_in(s: &[u8], room: &mut [u8]) -> Option<Heard> {
    let e = text_lines::word_end(s, 0);
    if e >= s.len() {
        return None;
    }
    let at = e + 1;
    match &s[..e] {
        b"frame" => Some(Heard::Frame(heard::frame_line(s, at, room)?)),
        b"tick" => Some(Heard::Tick(heard::tick_line(s, at)?)),
        _ => None,
    }
}

// The record that a line makes, at the start of `out`.
// Kept (5): the frame goes on field by field, as `write_frame` takes it (docs/PROMISES.md).
pub fn record_of<'a>(s: &[u8], room: &mut [u8], out: &'a mut [u8]) -> Result<&'a [u8], LineError> {
    let size = match heard_in(s, room).ok_or(LineError::NoRecord)? {
        Heard::Frame(f) => {
            let payload = room.get(..f.length).ok_or(LineError::NoRecord)?;
            log_write::write_frame(f.time, f.channel, f.id, f.extended, payload, out)?
        }
        Heard::Tick(t) => log_write::write_tick(t.time, t.channel, out)?,
    };
    Ok(front(out, size))
}

// The steps `write` and `write1`.
use desk_buffers::{Bench, Fields, front};
use desk_values::message;
use desk_values::message::{Listed, Values};
use notation_answers::answer;
use notation_read::fields::Head;
use page_table::Interface;
use refusals::Refusal;
use text_pen::Sheet;

// The order to write a message into the first `length` bytes of the room.
#[derive(Clone, Copy)]
struct Order {
    head: Head,
    values: Values,
    length: usize,
}

// `ID x|s VALUES HEX`
fn write_line(mut fields: Fields, room: &mut [u8]) -> Option<Order> {
    let head = fields.head()?;
    let word = fields.word()?;
    let length = fields.last_bytes(room)?;
    let values = Values::taken(word)?;
    Some(Order {
        head,
        values,
        length,
    })
}

// Why an order is not carried out: it is none, no message has its identifier, or the codec refuses it. Each has an answer of its own.
// Kept (1): it is the error of a Result, which ? makes of a refusal.
#[derive(Clone, Copy)]
enum Undone {
    Unknown,
    NoKind,
    Refused(Refusal),
}

impl From<Refusal> for Undone {
    fn from(w: Refusal) -> Undone {
        Undone::Refused(w)
    }
}

// The message that is to be written.
fn message_in<M: Listed>(iface: Interface, o: Order) -> Result<M, Undone> {
    let found = page_search::message_on(iface, o.head.id, o.head.extended);
    let (kind, _, _, _) = found.ok_or(Undone::NoKind)?;
    if o.values.count != message::count_of(kind) {
        return Err(Undone::Unknown);
    }
    message::message_of(kind, o.values).ok_or(Undone::Refused(Refusal::NoRawNumber))
}

fn carried_out(iface: Interface, o: Order, room: &mut [u8]) -> Result<(u32, usize), Undone> {
    let buf = room.get_mut(..o.length).ok_or(Undone::Unknown)?;
    let written = match iface {
        Interface::Newer => messages::write(message_in(iface, o)?, buf)?,
        Interface::Older => older::write(message_in(iface, o)?, buf)?,
    };
    Ok(written)
}

// `write ID x|s VALUES HEX`, `write1 ..`
// Kept (5): whose pages a step goes by is no part of its line, nor of where it works.
pub fn write(iface: Interface, fields: Fields, bench: Bench) {
    let Bench { room, output } = bench;
    match write_line(fields, room) {
        None => answer::unknown(&mut output.sheet),
        Some(o) => {
            let written = carried_out(iface, o, room);
            put_written(&mut output.sheet, written, front(room, o.length));
        }
    }
}

// `A ID LEN` or the refusal, with the buffer afterwards
fn put_written(sheet: &mut Sheet, written: Result<(u32, usize), Undone>, buf: &[u8]) {
    match written {
        Ok((id, len)) => {
            sheet.put(b"A ");
            text_written::put_hexadecimal(sheet, u64::from(id));
            sheet.put(b" ");
            text_written::put_decimal(sheet, len as u64);
            answer::bytes_end(sheet, buf);
        }
        Err(Undone::Unknown) => answer::unknown(sheet),
        Err(Undone::NoKind) => sheet.put(b"X\n"),
        Err(Undone::Refused(w)) => answer::refusal_bytes(sheet, w, buf),
    }
}

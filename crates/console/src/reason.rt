// Why a call failed. std tells it with its number behind it, `TEXT (os error N)`; the programs tell the system's text alone.
use std::io;
use std::io::{Cursor, Write};

// What stands before the last ` (`; all where none stands there.
fn text_before(told: &[u8]) -> &[u8] {
    match told.iter().rposition(|&b| b == b'(') {
        Some(at) if at > 0 => &told[..at - 1],
        _ => told,
    }
}

// The text of a reason that has the system's number, and the whole of any other.
fn text_in(why: io::Error, told: &[u8]) -> &[u8] {
    if why.raw_os_error().is_some() {
        text_before(told)
    } else {
        told
    }
}

pub fn say(rt: HostRuntime, why: io::Error) {
    let mut room = Cursor::new([0u8; 256]);
    let _ = write!(room, "{why}");
    let n = room.position() as usize;
    let told = room.into_inner();
    crate::say(rt, text_in(why, crate::front(&told, n)));
}

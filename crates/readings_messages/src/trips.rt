// The theorems of both ways (messages/proofs/Trips.antt), run on two frames of each kind: each line says whether it held.
// Kept (5): what a frame is made of is named one by one, as the codec takes it.
// Kept (6): no heap in a program, so what is written goes into a buffer of fixed size, with room behind the longest frame.
use crate::labels;
use crate::show::{Refused, say};
use message_types::{Message, kind_of};
use refusals::Refusal;

// The first n bytes are the frame's, and those behind them as they were before.
fn is_stored(frame: &[u8], before: &[u8], buf: &[u8], n: usize) -> bool {
    n <= buf.len() && n <= before.len() && &buf[..n] == frame && &buf[n..] == &before[n..]
}

// A message into a longer buffer: the frame's identifier and bytes.
fn writes(m: Message, id: u32, frame: &[u8]) -> bool {
    let before = [0x55u8; 10];
    let mut buf = [0x55u8; 10];
    messages::write(m, &mut buf).is_ok_and(|(i, n)| i == id && is_stored(frame, &before, &buf, n))
}

// read-write: what a frame is read to writes the same bytes, under the same identifier, and leaves those behind them.
fn read_write(id: u32, extended: bool, frame: &[u8]) -> bool {
    messages::read(id, extended, frame).is_ok_and(|m| writes(m, id, frame))
}

// write-read: what a message writes reads back, and the message that it reads back to writes it again.
fn write_read(m: Message, extended: bool) -> bool {
    let mut buf = [0x55u8; 10];
    messages::write(m, &mut buf).is_ok_and(|(id, n)| {
        buf.get(..n)
            .is_some_and(|frame| read_write(id, extended, frame))
    })
}

// one-message: two messages of one kind that differ write different bytes.
fn one_message(m: Message, other: Message) -> bool {
    let mut buf = [0x55u8; 10];
    let mut another = [0x55u8; 10];
    messages::write(m, &mut buf).is_ok()
        && messages::write(other, &mut another).is_ok()
        && kind_of(m) == kind_of(other)
        && buf != another
}

fn line(rt: HostRuntime, theorem: &str, m: Message, holds: bool) {
    let held = if holds { "holds" } else { "FAILS" };
    say(
        rt,
        format_args!("  {theorem} {}: {held}\n", labels::kind(m)),
    );
}

// What holds of two frames of a kind that differ, or why one of them is refused.
fn of_frames(
    rt: HostRuntime,
    id: u32,
    extended: bool,
    frame: &[u8],
    other: &[u8],
) -> Result<(), Refusal> {
    let m = messages::read(id, extended, frame)?;
    line(rt, "read-write", m, read_write(id, extended, frame));
    line(rt, "read-write", m, read_write(id, extended, other));
    let n = messages::read(id, extended, other)?;
    line(rt, "write-read", m, write_read(m, extended));
    line(rt, "one-message", m, one_message(m, n));
    Ok(())
}

// Of each kind its identifier, whether it is extended, and two payloads.
const FRAMES: &'static [(u32, bool, &'static [u8], &'static [u8])] = &[
    (
        0x63000,
        true,
        &[0xa0, 0x0f, 0x83, 0xff, 0x41, 0x00, 0x01, 0x64],
        &[0x88, 0x13, 0x00, 0x00, 0x41, 0x41, 0x00, 0xff],
    ),
    (
        0x63001,
        true,
        &[0xff, 0xff, 0x00, 0x80, 0xff, 0x7f, 0xff, 0xff],
        &[0xff, 0xff, 0x00, 0x80, 0xff, 0x7f, 0xff, 0x7f],
    ),
    (0x6b000, true, &[13], &[0]),
    (0x6b001, true, &[2, 1], &[7, 4]),
    (0x6b002, true, &[0], &[1]),
    (
        0x6b003,
        true,
        &[0xff, 0xff, 0xff, 0x7f, 0x00, 0x80, 0xf8],
        &[0xff, 0xff, 0xff, 0x7f, 0x00, 0x80, 0xe8],
    ),
    (0x6b004, true, &[0], &[1]),
    (0x6b005, true, &[1], &[3]),
    (
        0x6b105,
        true,
        &[1, 2, 3, 254, 255, 0],
        &[1, 2, 3, 254, 255, 1],
    ),
    (
        6,
        false,
        &[0x82, 0x15, 0, 0, 0, 0, 0, 0],
        &[0x03, 0xff, 0x03, 0, 0, 0, 0, 0],
    ),
    (
        7,
        false,
        &[0x82, 0x15, 0x03, 0x03, 0x03, 0, 0, 0],
        &[0x83, 0xff, 0x1f, 0x07, 0x0f, 0x1f, 0, 0],
    ),
    (
        8,
        false,
        &[0xfe, 0x70, 0x7f, 0xfc, 0xff, 0xfc, 0x80, 0x00],
        &[0x00, 0x01, 0x00, 0x02, 0x00, 0x03, 0x00, 0x00],
    ),
    (0x63002, true, &[0x01, 0x07, 0x00], &[0x03, 0x07, 0x01]),
    (
        0x63201,
        true,
        &[0x19, 0x32, 0x54, 0x76, 0x98, 0xba, 0xdc, 0xfe],
        &[0xff, 0xff, 0xff, 0xff, 0xff, 0xff, 0xff, 0xff],
    ),
    (
        0x6b200,
        true,
        &[0x21, 0x43, 0x65, 0x87, 0x41, 0x00, 0xff, 0x28],
        &[0x21, 0x43, 0x65, 0x87, 0x41, 0x00, 0xff, 0x29],
    ),
    (
        0x6b201,
        true,
        &[0x05, 0x10, 0x32, 0x54, 0x76, 0x41, 0x00, 0xff],
        &[0x05, 0x10, 0x32, 0x54, 0xf6, 0x41, 0x00, 0xff],
    ),
    (
        0x6b202,
        true,
        &[0xf9, 0x41, 0x42, 0x43, 0x44, 0x00, 0x00, 0xff],
        &[0xf9, 0x41, 0x42, 0x43, 0x44, 0x00, 0xff, 0xff],
    ),
    (
        0x6b203,
        true,
        &[0x0c, 0xe8, 0x03, 0x01, 0x02, 0x03, 0x04, 0x05],
        &[0x00, 0xff, 0xff, 0xff, 0xff, 0xff, 0xff, 0xff],
    ),
    (
        0x6b204,
        true,
        &[0x09, 0x03, 0x01, 0x02, 0x03, 0x04, 0x05, 0x06],
        &[0x00, 0x00, 0xff, 0xff, 0xff, 0xff, 0xff, 0xff],
    ),
    (
        0x6b100,
        true,
        &[0x65, 0x00, 0x25, 0x0a, 0x50, 0x5f],
        &[0xff, 0xff, 0xff, 0xff, 0xff, 0xff],
    ),
    (
        0x6b101,
        true,
        &[0xb8, 0x0b, 0x88, 0x13, 0xa0, 0x0f],
        &[0xb8, 0x0b, 0x88, 0x13, 0xa1, 0x0f],
    ),
    (
        0x6b102,
        true,
        &[0x0a, 0x00, 0xc4, 0x09, 0x01, 0x00, 0x96, 0x00],
        &[0x0a, 0x00, 0xc4, 0x09, 0x01, 0x00, 0xff, 0xff],
    ),
    (
        0x6b103,
        true,
        &[0x0a, 0x00, 0xc4, 0x09, 0x01, 0x00, 0x96, 0x00],
        &[0x0b, 0x00, 0xc4, 0x09, 0x01, 0x00, 0x96, 0x00],
    ),
    (
        0x6b104,
        true,
        &[0xf6, 0xff, 0xfe, 0xff, 0x05, 0x00],
        &[0xf6, 0xff, 0x02, 0x00, 0x05, 0x00],
    ),
    (0x6b300, true, &[0x83, 0xff], &[0x00, 0x80]),
];

pub fn all(rt: HostRuntime) {
    for &(id, extended, frame, other) in FRAMES {
        if let Err(w) = of_frames(rt, id, extended, frame, other) {
            say(rt, format_args!("{}\n", Refused(w)));
        }
    }
}

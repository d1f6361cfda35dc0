// What a line tells that was heard: a frame or a tick, by the fields behind the line's word.
ghost use Rattle.std.specs.Prelude.{◌≡◌, length};
ghost use Rattle.notation_read.specs.Heard.{frame_of, room_of, tick_of};

use crate::fields;

// A frame's bytes are the first `length` of the room that was lent for them.
// Kept (4, 6): the fields of `frame_of` (docs/PROMISES.md), of which the bytes are the room's, as `fields::take_rest` says.
#[derive(Clone, Copy)]
pub struct Frame {
    pub channel: u32,
    pub time: u32,
    pub id: u32,
    pub extended: bool,
    pub length: usize,
}

#[derive(Clone, Copy)]
pub struct Tick {
    pub channel: u32,
    pub time: u32,
}

// `CHANNEL TIME ID x|s HEX`
#[tactic(auto, unfolding(crate::specs::Heard::frame_of, crate::specs::Heard::room_of))]
pub fn frame_line(s: &[u8], at: usize, room: &mut [u8]) -> Option<Frame>
    ensures value { result ≡ frame_of s.now at (length room.old) }
    ensures room_after { room.new ≡ room_of s.now at room.old }
{
    let stamp = fields::take_stamp(s, at)?;
    let head = fields::take_head(s, stamp.next)?;
    let length = fields::take_rest(s, head.next, room)?;
    Some(Frame {
        channel: stamp.channel,
        time: stamp.time,
        id: head.id,
        extended: head.extended,
        length,
    })
}

// `CHANNEL TIME`
#[tactic(auto, unfolding(crate::specs::Heard::tick_of))]
pub fn tick_line(s: &[u8], at: usize) -> Option<Tick>
    ensures { result ≡ tick_of s.now at }
{
    let stamp = fields::take_stamp(s, at)?;
    (s.len() < stamp.next).then_some(Tick {
        channel: stamp.channel,
        time: stamp.time,
    })
}

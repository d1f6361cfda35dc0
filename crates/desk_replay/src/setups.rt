// The set-ups of a replay, behind its log.
use desk_buffers::Fields;
use notation_setup::setup;
use notation_setup::setup::Setup;
use playing_nights::Replay;

fn spaced(b: u8) -> u8 {
    if b == b',' { b' ' } else { b }
}

// `POST,CHANNEL,VOLT,CHG,DIS,W[,SENSOR[,IFACE]]`: the fields of a `setup` line, whose spaces are commas here. The line goes to the front of room; what has no
// room is no set-up.
fn asked_in(s: &[u8], room: &mut [u8]) -> Option<Setup> {
    let line = room.get_mut(..s.len())?;
    for (place, &b) in line.iter_mut().zip(s) {
        *place = spaced(b);
    }
    setup::setup_line(line, 0)
}

// The replay after a set-up. One that is refused is told by the replay itself.
fn prepared(replay: Replay, setup: Setup) -> Replay {
    playing_setups::set_up(replay, setup.post, setup.channel, setup.limits).replay
}

// Set-ups joined by `;`
fn set_ups(s: &[u8], room: &mut [u8]) -> Option<Replay> {
    s.split(|&b| b == b';')
        .try_fold(playing_setups::start(), |replay, piece| {
            Some(prepared(replay, asked_in(piece, room)?))
        })
}

// `SETUPS` at the line's end: `-`, or set-ups. They have no space, which would be read as a comma. None where the words are none.
pub fn take_set_ups(mut fields: Fields) -> Option<Replay> {
    let all = fields.word()?;
    if !fields.is_over() {
        return None;
    }
    if let b"-" = all {
        return Some(playing_setups::start());
    }
    // Kept (6): no heap.
    let mut room = console::buffer();
    set_ups(all, &mut room)
}

// Fields of a line that stand together. `at` is where the first starts; `next` is where the one behind them does.
// Kept (5): docs/PROMISES.md names `result ≡ frame_of s at`, of a line and a place in it, so that these functions stand; `desk_buffers::Fields` goes over them.
ghost use Rattle.std.specs.Prelude.{◌≡◌, length};
ghost use Rattle.notation_read.specs.Fields.{last_of, stamp_of, head_of, rest_of, rest_in};

// `CHANNEL TIME`
#[derive(Clone, Copy)]
pub struct Stamp {
    pub channel: u32,
    pub time: u32,
    pub next: usize,
}

// `ID x|s`
#[derive(Clone, Copy)]
pub struct Head {
    pub id: u32,
    pub extended: bool,
    pub next: usize,
}

// A number that the line ends with.
#[tactic(auto, unfolding(crate::specs::Fields::last_of))]
pub fn take_last(s: &[u8], at: usize) -> Option<u32>
    ensures { result ≡ last_of s.now at }
{
    let (n, next) = text_lines::take_u32(s, at)?;
    (s.len() < next).then_some(n)
}

#[tactic(auto, unfolding(crate::specs::Fields::stamp_of))]
pub fn take_stamp(s: &[u8], at: usize) -> Option<Stamp>
    ensures { result ≡ stamp_of s.now at }
{
    let (channel, a) = text_lines::take_u32(s, at)?;
    let (time, next) = text_lines::take_u32(s, a)?;
    Some(Stamp {
        channel,
        time,
        next,
    })
}

#[tactic(auto, unfolding(crate::specs::Fields::head_of))]
pub fn take_head(s: &[u8], at: usize) -> Option<Head>
    ensures { result ≡ head_of s.now at }
{
    let (id, a) = text_lines::take_id(s, at)?;
    let (extended, next) = text_lines::take_form(s, a)?;
    Some(Head { id, extended, next })
}

// `HEX` at the line's end: its bytes go to the front of room.
// Kept (6): the room stays its lender's, who hands it on to be read and written: so the answer is how many bytes it has, as `rest_of` says.
#[tactic(auto, unfolding(crate::specs::Fields::rest_of, crate::specs::Fields::rest_in))]
pub fn take_rest(s: &[u8], at: usize, room: &mut [u8]) -> Option<usize>
    ensures value { result ≡ rest_of s.now at (length room.old) }
    ensures room_after { room.new ≡ rest_in s.now at room.old }
{
    text_bytes::hex_bytes(s.get(at..)?, room)
}

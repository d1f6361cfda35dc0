// Frames of the older controllers over the C interface (02, Req 11), in numbers and bytes alone, by the pages of 004 and 001. For C callers that need no table.
// Apart from `plain_frames`: a function that two entries of one archive call is not built into either, by which reading a frame took a fifth longer.
// Kept (1): the C interface hands the answer out as one word, a number or a refusal (02); below the entry they are a `Result`.
// Kept (5): the C interface hands these in one by one.
#![tactic(auto)]

ghost use Rattle.std.specs.Prelude.{◌≡◌};
ghost use Rattle.page_table.specs.declared.Interface.TheVariants.{Older};
ghost use Rattle.page_change.specs.Change.{change_on, bytes_after};
ghost use Rattle.plain_older.specs.Older.{read_word_older, raws_after_older, write_word_older, buffer_left_older, change_word_older};

use page_table::Interface;
use plain_frames::{change_on, read_on, write_on};
use plain_words::answer_word;

// The kind of a frame, 9 to 29, and its signals' raw numbers in the first 16 places of raws, zeros behind them.
#[tactic(auto, unfolding(crate::specs::Older::read_word_older, crate::specs::Older::raws_after_older))]
#[unsafe(no_mangle)]
pub extern "C" fn rokemaipu_read_older(
    id: u32,
    extended: bool,
    payload: &[u8],
    raws: &mut [i64],
) -> u32
    ensures { (result ≡ read_word_older id extended payload.now raws.old)
        × (raws.new ≡ raws_after_older id extended payload.now raws.old) }
{
    answer_word(read_on(Interface::Older, id, extended, payload, raws))
}

// The frame of a kind from its signals' raw numbers, from index 0 of buf on; answers its number of bytes.
#[tactic(auto, unfolding(crate::specs::Older::write_word_older, crate::specs::Older::buffer_left_older))]
#[unsafe(no_mangle)]
pub extern "C" fn rokemaipu_write_older(kind: u32, raws: &[i64], buf: &mut [u8]) -> u32
    ensures { (result ≡ write_word_older kind raws.now buf.old)
        × (buf.new ≡ buffer_left_older kind raws.now buf.old) }
{
    answer_word(write_on(Interface::Older, kind, raws, buf))
}

// One signal of a frame changed in the lent bytes.
#[tactic(auto, unfolding(crate::specs::Older::change_word_older))]
#[unsafe(no_mangle)]
pub extern "C" fn rokemaipu_change_older(
    id: u32,
    extended: bool,
    payload: &mut [u8],
    start: u32,
    raw: i64,
) -> u32
    ensures { (result ≡ change_word_older id extended payload.old start raw)
        × (payload.new ≡ bytes_after payload.old (change_on Older id extended payload.old start raw)) }
{
    answer_word(change_on(Interface::Older, id, extended, payload, start, raw))
}

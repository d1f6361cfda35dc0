// Frames over the C interface, in numbers and bytes alone: reading to raw numbers, writing from them, changing one signal. For C callers that need no table.
// Each is one function over the pages of an interface, which the entries here and those of `plain_older` call once: they are built into both.
// Kept (1): the C interface hands the answer out as one word, a number or a refusal (02); below the entry they are a `Result`.
// Kept (5): the C interface hands identifier, form, bytes, kind, numbers, start and raw number in one by one, and the codec below takes them so: a struct
// between them would be put together in each entry, only to be taken apart by `read_on`, `write_on` or `change_on` in the next line.
#![tactic(auto)]

ghost use Rattle.std.specs.Prelude.{◌≡◌, length};
ghost use Rattle.page_read.specs.Judge.{judge_on};
ghost use Rattle.page_change.specs.Change.{change_of, change_on, bytes_after};
ghost use Rattle.plain_words.specs.Words.{outcome_of};
ghost use Rattle.plain_frames.specs.Plain.{read_outcome, raws_left, read_word, raws_after, write_outcome_on, buffer_left_on, write_word, buffer_left, changed_outcome, change_word};

use page_table::Interface;
use plain_words::answer_word;
use refusals::Refusal;

// The kind of a frame, and its signals' raw numbers in the first 16 places of raws, zeros behind them.
pub fn read_on(
    iface: Interface,
    id: u32,
    extended: bool,
    payload: &[u8],
    raws: &mut [i64],
) -> Result<u32, Refusal>
    ensures answer { outcome_of result ≡ read_outcome (judge_on iface id extended payload.now) (length raws.old) }
    ensures left { raws.new ≡ raws_left (judge_on iface id extended payload.now) raws.old }
{
    let (kind, n) = page_read::judge_on(iface, id, extended, payload)?;
    let places = raws.first_chunk_mut().ok_or(Refusal::ShortBuffer)?;
    *places = page_write::raws_of(kind, n);
    Ok(kind as u32)
}

// The frame of a kind from its signals' raw numbers, from index 0 of buf on; answers its number of bytes.
// The kind is one of these pages', and there is a number for each of its signals.
pub fn write_on(iface: Interface, kind: u32, raws: &[i64], buf: &mut [u8]) -> Result<u32, Refusal>
    ensures answer { outcome_of result ≡ write_outcome_on iface kind raws.now buf.old }
    ensures left { buf.new ≡ buffer_left_on iface kind raws.now buf.old }
{
    if !page_rows::is_on(iface, kind as usize) {
        return Err(Refusal::NoRawNumber);
    }
    let zs = raws.first_chunk().ok_or(Refusal::NoRawNumber)?;
    let (_, len) = page_write::write_raws(kind as usize, *zs, buf)?;
    Ok(len as u32)
}

// One signal of a frame changed in the lent bytes.
pub fn change_on(
    iface: Interface,
    id: u32,
    extended: bool,
    payload: &mut [u8],
    start: u32,
    raw: i64,
) -> Result<u32, Refusal>
    ensures answer { outcome_of result ≡ changed_outcome (change_on iface id extended payload.old start raw) }
    ensures left { payload.new ≡ bytes_after payload.old (change_on iface id extended payload.old start raw) }
{
    page_change::change_on(iface, id, extended, payload, start, raw)?;
    Ok(0)
}

#[tactic(auto, unfolding(crate::specs::Plain::read_word, crate::specs::Plain::raws_after, page_read::specs::Judge::judge_on, page_read::specs::Judge::judge_of))]
#[unsafe(no_mangle)]
pub extern "C" fn rokemaipu_read(id: u32, extended: bool, payload: &[u8], raws: &mut [i64]) -> u32
    ensures { (result ≡ read_word id extended payload.now raws.old)
        × (raws.new ≡ raws_after id extended payload.now raws.old) }
{
    answer_word(read_on(Interface::Newer, id, extended, payload, raws))
}

#[tactic(auto, unfolding(crate::specs::Plain::write_word, crate::specs::Plain::buffer_left))]
#[unsafe(no_mangle)]
pub extern "C" fn rokemaipu_write(kind: u32, raws: &[i64], buf: &mut [u8]) -> u32
    ensures { (result ≡ write_word kind raws.now buf.old)
        × (buf.new ≡ buffer_left kind raws.now buf.old) }
{
    answer_word(write_on(Interface::Newer, kind, raws, buf))
}

#[tactic(auto, unfolding(crate::specs::Plain::change_word, page_change::specs::Change::change_on, page_change::specs::Change::change_of, page_read::specs::Judge::judge_on, page_read::specs::Judge::judge_of))]
#[unsafe(no_mangle)]
pub extern "C" fn rokemaipu_change(
    id: u32,
    extended: bool,
    payload: &mut [u8],
    start: u32,
    raw: i64,
) -> u32
    ensures { (result ≡ change_word id extended payload.old start raw)
        × (payload.new ≡ bytes_after payload.old (change_of id extended payload.old start raw)) }
{
    answer_word(change_on(Interface::Newer, id, extended, payload, start, raw))
}

// The latest frame of a kind over the C interface: its time as received, its age and its kind, and its bytes as they came. The lent table is only read.
// For C callers; a caller in Rattle asks `watch::look_up`.
// Kept (1): the C interface hands the answer out as one word, a number or a refusal (02); below the entry they are a `Result`.
// Kept (5): the C interface hands the two lent buffers in one by one, and what stands below the entry takes them as they come.
#![tactic(auto)]

ghost use Rattle.std.specs.Prelude.{◌≡◌, ◌&&◌, length};
ghost use Rattle.watch_rules.specs.Table.{look_up_of};
ghost use Rattle.plain_words.specs.Words.{outcome_of};
ghost use Rattle.lent_latest.specs.Latest.{of_kind_in, is_shown, has_room, is_kind, kept_of, kept_outcome, latest_outcome, time_left, bytes_left, latest_word, time_after, frame_after};

use lent_look::post_at;
use page_table::MESSAGE_COUNT;
use plain_words::answer_word;
use post_ages::{age, received};
use refusals::Refusal;
use rule_pages::place_by;
use rules::Slot;
use watch_rules::Table;

// As of the time of the post's latest event. Where no frame was accepted nothing is written, so nothing lent can be too short; a number that is no kind can
// stand in a table of the caller's own making alone.
pub fn hand_out(at: u64, l: Slot, times: &mut [u32], buf: &mut [u8]) -> Result<u32, Refusal>
    ensures answer { outcome_of result ≡ kept_outcome l (length times.old) (length buf.old) }
    ensures times { times.new ≡ time_left (is_shown l && has_room l.kind (length times.old) (length buf.old)) at l times.old }
    ensures bytes { buf.new ≡ bytes_left (is_shown l && has_room l.kind (length times.old) (length buf.old)) l buf.old }
{
    let kind = l.kind as usize;
    if !l.is_known() || MESSAGE_COUNT <= kind {
        return Ok(0);
    }
    let len = page_rows::length_of(kind);
    if buf.len() < len {
        return Err(Refusal::ShortBuffer);
    }
    let places = times.first_chunk_mut().ok_or(Refusal::ShortBuffer)?;
    *places = [received(l.time), age(at, l.time), l.kind];
    payload::store(page_rows::is_big(kind), buf, l.raw, len);
    Ok(len as u32)
}

// A kind shares its place with one of the other interface's pages, which a post has instead.
// Kept (1): a slot that may hold nothing, and no `Option`: `of_kind_in` is one, as lent_session's `open_kept`, and `kept_outcome` asks it of any slot.
fn of_kind(l: Slot, kind: u32) -> Slot
    ensures { result ≡ of_kind_in kind l }
{
    if l.kind == kind {
        return l;
    }
    Slot::default()
}

#[tactic(auto, unfolding(crate::specs::Latest::time_after, crate::specs::Latest::frame_after))]
fn latest_of(
    t: &Table,
    post: u32,
    kind: u32,
    times: &mut [u32],
    buf: &mut [u8],
) -> Result<u32, Refusal>
    ensures answer { outcome_of result ≡ latest_outcome (look_up_of t.now post).answer (is_kind kind) (kept_of t.now post kind) (length times.old) (length buf.old) }
    ensures times { times.new ≡ time_after t.now post kind times.old buf.old }
    ensures bytes { buf.new ≡ frame_after t.now post kind times.old buf.old }
{
    let p = post_at(t, post)?;
    let k = kind as usize;
    if MESSAGE_COUNT <= k {
        return Err(Refusal::UnknownIdentifier);
    }
    hand_out(
        p.head.time,
        of_kind(p.latest[place_by(k)], kind),
        times,
        buf,
    )
}

#[tactic(auto, unfolding(crate::specs::Latest::latest_word))]
#[unsafe(no_mangle)]
pub extern "C" fn rokemaipu_latest(
    t: &Table,
    post: u32,
    kind: u32,
    times: &mut [u32],
    buf: &mut [u8],
) -> u32
    ensures { (result ≡ latest_word t.now post kind times.old buf.old)
        × (times.new ≡ time_after t.now post kind times.old buf.old)
        × (buf.new ≡ frame_after t.now post kind times.old buf.old) }
{
    answer_word(latest_of(t, post, kind, times, buf))
}

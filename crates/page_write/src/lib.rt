// The raw whole numbers of a frame's signals by the table: taken from a payload number, all of a kind or one, and written into the bytes of a frame (refusals 7
// and 8). For whoever makes messages of numbers, or numbers of messages. Every public function takes any input.
#![tactic(auto)]

ghost use Rattle.std.specs.Prelude.{◌≡◌, pos, slice_index_or};
ghost use Rattle.page_write.specs.Raws.{raws_of, write_raws_of, buffer_after};

// The crates among these are passed on to those above, which name them through this one.
pub use page_read;
use page_read::page_rows::{identifier_of, is_big, length_of};
use page_read::page_search::first_of_kind;
use page_read::payload;
pub use page_read::{page_rows, page_search, page_table};
use refusals::Refusal;
use signals::pack;

mod at_row; // at_row.rt: what packing does at a row
mod signals; // signals.rt: the loops over one message's rows

// No message has more signals.
pub const SIGNALS: usize = 16;

// The raw numbers of a message's signals, in the table's order, and 0 behind them.
// Kept (6): no heap and fixed memory is a rule of the project.
pub type Raws = [i64; SIGNALS];

// The raw whole number of each of a kind's signals, in the table's order, and 0 behind them.
// Kept (1): tried as `map_or` over a closure that calls `unpack`; the goal of what `raws_of` ensures stayed open.
pub fn raws_of(kind: usize, number: u64) -> Raws
    ensures { result ≡ raws_of kind number }
{
    let Some(i) = first_of_kind(kind) else {
        return [0; SIGNALS];
    };
    signals::unpack(i, kind, number)
}

// The raw number of a kind's signal at one place of the table's order, and 0 where there is none: for a caller that knows the kind, so
// that nothing is looked for or looped over when the program runs.
// Kept (1): tried as `map_or` over a closure that calls `raw_after`; what that requires (`map_or-requires`) stood open, as it did not with the let-else.
pub fn raw_of(kind: usize, place: usize, number: u64) -> i64
    ensures { result ≡ slice_index_or (raws_of kind number) place (pos 0) }
{
    let Some(i) = first_of_kind(kind) else {
        return 0;
    };
    if SIGNALS <= place {
        return 0;
    }
    signals::raw_after(i, kind, place, number)
}

// The frame of a kind whose signals have these raw numbers, by its identifier and the number of its bytes: 7, then 8. Numbers behind them are passed over.
pub fn write_raws(kind: usize, raws: Raws, buf: &mut [u8]) -> Result<(u32, usize), Refusal>
    ensures { (result ≡ write_raws_of kind raws buf.old) × (buf.new ≡ buffer_after kind raws buf.old) }
{
    let i = first_of_kind(kind).ok_or(Refusal::NoRawNumber)?;
    let n = pack(i, kind, raws).ok_or(Refusal::NoRawNumber)?;
    let bytes = length_of(kind);
    if buf.len() < bytes {
        return Err(Refusal::ShortBuffer);
    }
    payload::store(is_big(kind), buf, n, bytes);
    Ok((identifier_of(kind), bytes))
}

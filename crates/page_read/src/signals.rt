// The walk over the rows of one message, which stand together from its first row on, and what it does at a row.
ghost use Rattle.std.specs.Prelude.{◌≡◌, ◌%◌, drop, [], ◌∷◌};
ghost use Rattle.page_search.specs.page_table.specs.Layout.{row_of};
ghost use Rattle.page_search.specs.page_table.specs.Table.{rows, Fine, block, bits_at};
ghost use Rattle.page_read.specs.Steps.{offence_of, cleared, judged_by, judged_rest};

use page_search::page_rows::{ROW_COUNT, label_holds, row_at, row_of};
use page_search::page_table::{Line, Row};
use refusals::Refusal;

// The start as refusal 5 carries it: no signal of 8 bytes starts above bit 63.
pub fn start_bit(r: Row) -> u8
    ensures { result ≡ r.start % 256 }
{
    (r.start % 256) as u8
}

#[tactic(auto, using(signal::proofs::Totals::get_in))]
fn signal_bits(r: Row, n: u64) -> u64
    requires { Fine r }
    ensures { result ≡ bits_at n r }
{
    signal::get(n, r.low, r.width)
}

// The start of a line's signal where it holds a number without a label.
// Kept (1): tried with `then_some`, and `judge_labels` with `map_or`: changing a signal of a frame took up to a twelfth longer.
pub fn offence_at(l: Line, n: u64) -> Option<u8>
    requires { Fine (row_of l) }
    ensures { result ≡ offence_of n (row_of l ∷ []) }
{
    let r = row_of(l);
    if label_holds(r.labels, signal_bits(r, n)) {
        return None;
    }
    Some(start_bit(r))
}

// Kept (5): first row and kind are two parts of `with_id`'s answer, whose clause (`with_message`) is a tuple.
// Kept (3): tried with `map(row_at)` and `take_while`: the check refuses it ("no text names a library so").
// One walk over the message's rows: the start of the first signal that holds a number without a label, or n with every signal cleared. What is left of it
// stands where no signal is.
fn sifted(at: usize, kind: usize, n: u64) -> Result<u64, u8>
    ensures { judged_rest kind n result ≡ judged_by kind n (offence_of n (block kind (drop at rows))) (cleared (block kind (drop at rows)) n) }
{
    let mut rest = n;
    for i in at..ROW_COUNT {
        let r = row_at(i);
        if r.kind != kind {
            return Ok(rest);
        }
        if !label_holds(r.labels, signal_bits(r, n)) {
            return Err(start_bit(r));
        }
        rest = signal::put(rest, r.low, r.width, 0);
    }
    Ok(rest)
}

// 5, then 6, of a frame with the right length.
pub fn judge_number(at: usize, kind: usize, n: u64) -> Result<(usize, u64), Refusal>
    ensures { result ≡ judged_by kind n (offence_of n (block kind (drop at rows))) (cleared (block kind (drop at rows)) n) }
{
    let rest = sifted(at, kind, n).map_err(Refusal::NoLabel)?;
    if rest != 0 {
        return Err(Refusal::UncoveredBit);
    }
    Ok((kind, n))
}

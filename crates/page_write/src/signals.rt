// The loops over the rows of one message, which stand together from its first row on, and what they do at a row.
ghost use Rattle.std.specs.Prelude.{◌≡◌, ◌<◌, get_or, drop, pos, slice_index_or};
ghost use Rattle.page_read.specs.page_table.specs.Table.{rows, no_row, row_count, signal_count, Fine, block};
ghost use Rattle.page_write.specs.Raws.{whole_at, wholes_of, pad};
ghost use Rattle.page_write.specs.Steps.{pack_of};

use crate::at_row::{put_raw, row_takes};
use crate::{Raws, SIGNALS};
use page_read::page_rows::{ROW_COUNT, row_at};
use page_read::page_table::Row;

fn signal_whole(r: Row, n: u64) -> i64
    requires { Fine r }
    ensures { result ≡ whole_at n r }
{
    signal::whole(signal::get(n, r.low, r.width), r.signed, r.width)
}

// Kept (6): no heap and fixed memory is a rule of the project, and no message has more than `SIGNALS`.
// Kept (2): the walk over a kind's rows stands in page_read's `sifted` and in `pack` too: it is the head of a loop, whose bodies differ.
// Kept (3): tried with `raws.iter_mut()` zipped with the rows' numbers: `signal_whole-requires`, `loop-raw-preserved` and `returns-then-r-kind` stood open, and
// the invariant that the check asks for them is over the borrows that were handed out (`yielded`), of a zip that is left early.
pub fn unpack(at: usize, kind: usize, n: u64) -> Raws
    ensures { result ≡ pad signal_count (wholes_of n (block kind (drop at rows))) }
{
    let mut raws = [0; SIGNALS];
    for i in at..ROW_COUNT {
        let j = i - at;
        if SIGNALS <= j {
            return raws;
        }
        let r = row_at(i);
        if r.kind != kind {
            return raws;
        }
        raws[j] = signal_whole(r, n);
    }
    raws
}

// The raw number of the row that stands `place` rows after `at`, and 0 where that is none of the kind.
pub fn raw_after(at: usize, kind: usize, place: usize, n: u64) -> i64
    requires { (at < row_count) × (place < signal_count) × ((get_or rows at no_row).kind ≡ kind) }
    ensures { result ≡ slice_index_or (wholes_of n (block kind (drop at rows))) place (pos 0) }
{
    let i = at + place;
    if ROW_COUNT <= i {
        return 0;
    }
    let r = row_at(i);
    if r.kind != kind {
        return 0;
    }
    signal_whole(r, n)
}

// The payload number of raw numbers that all fit and have their labels.
// Kept (3): tried with `map`, `take_while` and `enumerate` over the rows' numbers: its check did not end within three minutes.
pub fn pack(at: usize, kind: usize, raws: Raws) -> Option<u64>
    ensures { result ≡ pack_of (block kind (drop at rows)) raws }
{
    let mut n: u64 = 0;
    for i in at..ROW_COUNT {
        let r = row_at(i);
        if r.kind != kind {
            return Some(n);
        }
        let z = *raws.get(i - at)?;
        if !row_takes(r, z) {
            return None;
        }
        n = put_raw(r, n, z);
    }
    Some(n)
}

// The table: the rows of all documents, one behind the other.
ghost use Rattle.std.specs.Prelude.{◌≡◌, get_or};
ghost use Rattle.page_charger.specs.page_table.specs.Table.{rows, no_row};

use crate::{NO_ROW, inputs, older, row_of, safety, vehicle};
use page_charger::page_table::Row;

pub const ROW_COUNT: usize = 206;

// The compiler is told to build it into each loop that goes over rows, with most of what it calls: by a call for each row, reading a frame of 000 took 44 ns
// instead of 30, one of 004 54 instead of 41, and changing a signal 30 instead of 23.
// Kept (4): no conversion, but the row at a place of the table (`rows`), for every place.
#[tactic(auto, using(crate::proofs::ChargerRows::charger_row, crate::proofs::ChargerRows::past_rows))]
#[inline(always)]
pub fn row_at(i: usize) -> Row
    ensures { result ≡ get_or rows i no_row }
{
    if ROW_COUNT <= i {
        return NO_ROW;
    }
    let line = match i {
        ..page_charger::END => page_charger::line_at(i),
        ..safety::END => safety::line_at(i),
        ..older::END => older::line_at(i),
        ..vehicle::END => vehicle::line_at(i),
        _ => inputs::line_at(i),
    };
    row_of(line)
}

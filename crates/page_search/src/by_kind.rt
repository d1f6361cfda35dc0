// The search by kind and start: the place of a kind's first row is told by its message, and its rows stand together.
ghost use Rattle.std.specs.Prelude.{◌≡◌};
ghost use Rattle.page_rows.specs.page_table.specs.Table.{rows, first_at, has_kind, is_signal};

use page_rows::page_table::{MESSAGE_COUNT, Message};
use page_rows::{ROW_COUNT, message_at, row_at};

// Kept (1): with `then_some` writing a frame of 000 took a quarter longer, 54 ns where it takes 43; with `then` and a closure the proof of `returns` stood
// open.
pub fn first_of_kind(kind: usize) -> Option<usize>
    ensures { result ≡ first_at (has_kind kind) 0 rows }
{
    if MESSAGE_COUNT <= kind {
        return None;
    }
    let Message(_, _, _, _, at) = message_at(kind);
    Some(at)
}

// The row of the signal of a kind that starts at a bit: only an exact start counts. The kind's rows stand together.
// Kept (3): no `for`, since a labelled loop that finds the signal by break is asked for (docs/DECISIONS.md, "Forms of paper 01 that are used").
pub fn signal_at(kind: usize, start: u32) -> Option<usize>
    ensures { result ≡ first_at (is_signal kind start) 0 rows }
{
    let mut i = first_of_kind(kind)?;
    'rows: loop {
        if ROW_COUNT <= i {
            break 'rows None;
        }
        let r = row_at(i);
        if r.kind != kind {
            break 'rows None;
        }
        if r.start == start {
            break 'rows Some(i);
        }
        i += 1;
    }
}

// Changing one signal of a frame in place: the reader's refusals, then 13, 7 and 5, and no byte is touched but the signal's. For whoever corrects frames on
// their way. Its functions take any input.
#![tactic(auto)]

ghost use Rattle.std.specs.Prelude.{◌≡◌};
ghost use Rattle.page_write.specs.page_table.specs.Table.{Fine};
ghost use Rattle.page_change.specs.Change.{changed_row, change_on, change_of, bytes_after};

// The crate is passed on to those above, which name it through this one.
pub use page_write;
use page_write::page_read::{judge_on, start_bit};
use page_write::page_rows::{label_holds, row_at};
use page_write::page_search::signal_at;
use page_write::page_table::{Interface, Row};
use refusals::Refusal;
use whole::store_changed;

mod whole; // whole.rt: the bytes of a changed frame

// 7, then 5 for the new label.
// Kept (5): Row cannot carry Fine as an invariant, since row_at answers no_row past the table (its clause), which has no bit.
// Kept (5): it answers the kind that it is handed, as its definition `changed_row` does, by which docs/PROMISES.md tells the order of 13, 7 and 5.
fn change_row(r: Row, kind: usize, n: u64, z: i64) -> Result<(usize, u64), Refusal>
    requires { Fine r }
    ensures { result ≡ changed_row r kind n z }
{
    if !signal::fits(z, r.signed, r.width) {
        return Err(Refusal::NoRawNumber);
    }
    let v = signal::bits(z, r.signed, r.width);
    if !label_holds(r.labels, v) {
        return Err(Refusal::NoLabel(start_bit(r)));
    }
    Ok((kind, signal::put(n, r.low, r.width, v)))
}

// 01: "first the frame's own 3 to 6, then 13, then 7, then 5 for the new label". An accepted change answers kind and payload number of
// the changed frame. By the pages of an interface.
// Kept (1): no `?`, since a let-else that hands the reader's refusal straight on is asked for (docs/DECISIONS.md, "Forms of paper 01 that are used").
// Kept (5): docs/LIBRARY.md shows the calls with identifier, form, bytes, start and raw number one by one, and the C interface hands them in so.
pub fn change_on(
    iface: Interface,
    id: u32,
    extended: bool,
    bytes: &mut [u8],
    start: u32,
    raw: i64,
) -> Result<(usize, u64), Refusal>
    ensures { (result ≡ change_on iface id extended bytes.old start raw)
        × (bytes.new ≡ bytes_after bytes.old (change_on iface id extended bytes.old start raw)) }
{
    let read = judge_on(iface, id, extended, bytes);
    let Ok((kind, n)) = read else {
        return read;
    };
    let i = signal_at(kind, start).ok_or(Refusal::NoSignal)?;
    let r = row_at(i);
    let (kind, number) = change_row(r, kind, n, raw)?;
    store_changed(r, bytes, number, signal::bits(raw, r.signed, r.width));
    Ok((kind, number))
}

// By the pages of 000 and 004.
pub fn change(
    id: u32,
    extended: bool,
    bytes: &mut [u8],
    start: u32,
    raw: i64,
) -> Result<(usize, u64), Refusal>
    ensures { (result ≡ change_of id extended bytes.old start raw)
        × (bytes.new ≡ bytes_after bytes.old (change_of id extended bytes.old start raw)) }
{
    change_on(Interface::Newer, id, extended, bytes, start, raw)
}

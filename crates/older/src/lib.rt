// The codec of the older controllers (02, Req 11): reading a frame of their interface into its one message, writing a message, and changing a signal in place.
// For the desk and for programs; the laws of both ways are in proofs/Trips.antt.
#![tactic(auto)]

ghost use Rattle.std.specs.Prelude.{◌≡◌};
ghost use Rattle.page_table.specs.declared.Interface.TheVariants.{Older};
ghost use Rattle.page_change.specs.Change.{change_on, bytes_after};
ghost use Rattle.older.specs.Read.{read_of};
ghost use Rattle.older.specs.Write.{write_of, buffer_after};

use older_types::Message;
use page_table::Interface;
use refusals::Refusal;

// A frame's one message, or its refusal.
// 02, Req 11: "A second crate above the first reads and writes all of its messages."
// Kept (5): docs/PROMISES.md names `judge_on`, which `read_of` is made by, with identifier, form and bytes one by one.
pub fn read(id: u32, extended: bool, bytes: &[u8]) -> Result<Message, Refusal>
    ensures { result ≡ read_of id extended bytes.now }
{
    let (kind, number) = page_read::judge_on(Interface::Older, id, extended, bytes)?;
    Ok(older_build::message_of(kind, number))
}

// 01: "Writing a message gives 7 or 8."
// Kept (2): one function for both message types asks a trait of kind, `has_raws` and raw numbers of them, with a definition and a clause for each: its two
// impls would name the same six functions and six definitions, for the three lines that are alike here and in `messages::write`.
#[tactic(auto, unfolding(crate::specs::Write::write_of, crate::specs::Write::buffer_after))]
pub fn write(m: Message, buf: &mut [u8]) -> Result<(u32, usize), Refusal>
    ensures { (result ≡ write_of m buf.old) × (buf.new ≡ buffer_after m buf.old) }
{
    if !older_take::has_raws(m) {
        return Err(Refusal::NoRawNumber);
    }
    page_write::write_raws(older_types::kind_of(m), older_take::raws(m), buf)
}

// 01: "first the frame's own 3 to 6, then 13, then 7, then 5 for the new label".
// Kept (5): as `page_change::change`, whose call docs/LIBRARY.md shows with identifier, form, bytes, start and raw number one by one.
pub fn change(
    id: u32,
    extended: bool,
    bytes: &mut [u8],
    start: u32,
    raw: i64,
) -> Result<(usize, u64), Refusal>
    ensures { (result ≡ change_on Older id extended bytes.old start raw)
        × (bytes.new ≡ bytes_after bytes.old (change_on Older id extended bytes.old start raw)) }
{
    page_change::change_on(Interface::Older, id, extended, bytes, start, raw)
}

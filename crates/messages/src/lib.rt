// Reading a frame into its one message, and writing a message: the codec, for the desk and for programs; the laws of both ways are in proofs/Trips.antt.
// Kept (5): docs/PROMISES.md names `judge_of id extended bytes`, by which `read_of` is made, and the C interface hands the three in one by one.
#![tactic(auto)]

ghost use Rattle.std.specs.Prelude.{◌≡◌};
ghost use Rattle.messages.specs.Read.{read_of};
ghost use Rattle.messages.specs.Write.{write_of, buffer_after};

use message_types::Message;
use refusals::Refusal;

// A frame's one message, or its refusal.
// 01: "A message is read into one of nine kinds, each with its own fields"; of twenty-five with 02, Req 04 and Req 14.
pub fn read(id: u32, extended: bool, bytes: &[u8]) -> Result<Message, Refusal>
    ensures { result ≡ read_of id extended bytes.now }
{
    let (kind, number) = page_read::judge(id, extended, bytes)?;
    Ok(message_build::message_of(kind, number))
}

// 01: "Writing a message gives 7 or 8."
#[tactic(auto, unfolding(crate::specs::Write::write_of, crate::specs::Write::buffer_after))]
pub fn write(m: Message, buf: &mut [u8]) -> Result<(u32, usize), Refusal>
    ensures { (result ≡ write_of m buf.old) × (buf.new ≡ buffer_after m buf.old) }
{
    if !message_take::has_raws(m) {
        return Err(Refusal::NoRawNumber);
    }
    page_write::write_raws(message_types::kind_of(m), message_take::raws(m), buf)
}

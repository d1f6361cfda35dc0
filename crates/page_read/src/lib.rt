// Reading a frame by the table: to its kind and payload number, or to its refusal, 3 to 6 and 15 (01, "Numbers given back"; 02, Req 02). For whoever has to
// do with frames as they come. Its functions take any input.
#![tactic(auto)]

ghost use Rattle.std.specs.Prelude.{◌≡◌};
ghost use Rattle.page_read.specs.Judge.{judge_on, judge_of, judge_from};

// The crates among these are passed on to those above, which name them through this one.
pub use page_search;
use page_search::page_rows::is_on;
use page_search::page_table::Interface;
use page_search::with_id;
pub use page_search::{page_rows, page_table};
pub use payload;
use refusals::Refusal;

mod labels; // labels.rt: 5 of a message that has no bit without a signal
mod signals; // signals.rt: 5 and 6 by a walk over the message's rows

pub use signals::start_bit;

// The kind and payload number of the frame, or its refusal. 01: "Reading gives 3 to 6", in this order; 02: "with 15 in 4's place". By the pages of the
// interface, and `other` for an identifier that only the other interface has. Every reader is this one, so that the compiler builds its parts into it.
// Kept (5): docs/PROMISES.md names `judge_of id extended bytes` and that an accepted frame is `Ok (k, n)`, docs/LIBRARY.md shows the calls so, and the C
// interface hands identifier, form and bytes in one by one.
pub fn judge_from(
    iface: Interface,
    other: Refusal,
    id: u32,
    extended: bool,
    bytes: &[u8],
) -> Result<(usize, u64), Refusal>
    ensures { result ≡ judge_from iface other id extended bytes.now }
{
    let (kind, at, len, big) = with_id(id, extended).ok_or(Refusal::UnknownIdentifier)?;
    if !is_on(iface, kind) {
        return Err(other);
    }
    if bytes.len() < len {
        return Err(Refusal::TooShort);
    }
    if len < bytes.len() {
        return Err(Refusal::TooLong);
    }
    let n = payload::number(big, bytes);
    if labels::has_gaps(kind) {
        return signals::judge_number(at, kind, n);
    }
    labels::judge_labels(kind, n)
}

// 02, Req 11: "read by the post's own pages"; a reader without a post gives 3 for the other's identifiers.
pub fn judge_on(
    iface: Interface,
    id: u32,
    extended: bool,
    bytes: &[u8],
) -> Result<(usize, u64), Refusal>
    ensures { result ≡ judge_on iface id extended bytes.now }
{
    judge_from(iface, Refusal::UnknownIdentifier, id, extended, bytes)
}

// On the newer interface: by the pages of 000 and 004.
#[tactic(auto, using(crate::proofs::Interfaces::newer))]
pub fn judge(id: u32, extended: bool, bytes: &[u8]) -> Result<(usize, u64), Refusal>
    ensures { result ≡ judge_of id extended bytes.now }
{
    judge_on(Interface::Newer, id, extended, bytes)
}

// A frame as a post of an interface reads it: by its own pages, and an identifier that only the other interface's have is refused with 29, "a refusal number of
// its own in 3's place" (02, Req 11). For whoever hands a post its frames; a reader without a post gives 3. Its functions take any input.
// Kept (5): docs/PROMISES.md names `judge_of id extended bytes`, and the C interface hands identifier, form and bytes in one by one.
#![tactic(auto)]

ghost use Rattle.std.specs.Prelude.{◌≡◌};
ghost use Rattle.page_interfaces.specs.Foreign.{is_foreign, judge_for};

use page_read::judge_from;
use page_rows::is_on;
use page_search::with_id;
use page_table::Interface;
use refusals::Refusal;

#[tactic(auto, using(crate::proofs::Foreign::foreign_at_lem, crate::proofs::Foreign::foreign_none), unfolding(crate::specs::Foreign::is_foreign))]
pub fn is_foreign(iface: Interface, id: u32, extended: bool) -> bool
    ensures { result ≡ is_foreign iface id extended }
{
    with_id(id, extended).is_some_and(|(kind, _, _, _)| !is_on(iface, kind))
}

#[tactic(auto, using(crate::proofs::Foreign::from_for))]
pub fn judge_for(
    iface: Interface,
    id: u32,
    extended: bool,
    bytes: &[u8],
) -> Result<(usize, u64), Refusal>
    ensures { result ≡ judge_for iface id extended bytes.now }
{
    judge_from(iface, Refusal::OtherInterface, id, extended, bytes)
}

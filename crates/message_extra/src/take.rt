// The raw numbers of each message's signals, in the table's order.
// Kept (2): a trait of both functions is longer (message_safety/build.rt says by how much), and its impls would stand in the crate of the types.
ghost use Rattle.std.specs.Prelude.{◌≡◌};
ghost use Rattle.page_write.specs.Raws.{pad};
ghost use Rattle.page_write.specs.page_table.specs.Table.{signal_count};
ghost use Rattle.message_extra.specs.Take.{spcc_raws, ccs_raws, mcs_raws};

use message_fields::{celsius_raw, wide_raw};
use message_types::labels::Label;
use message_types::{CcsExtraInformation, McsExtraInformation, SpccInputs, padded};
use page_write::Raws;

pub fn spcc_raws(m: SpccInputs) -> Raws
    ensures { result ≡ pad signal_count (spcc_raws m) }
{
    padded([
        i64::from(m.input1),
        i64::from(m.input2),
        i64::from(m.input3),
        i64::from(m.input4),
        wide_raw(m.reserved),
        celsius_raw(m.cpu0),
        celsius_raw(m.cpu1),
        celsius_raw(m.pt1ka),
        celsius_raw(m.pt1kb),
        celsius_raw(m.pt1ksc),
        celsius_raw(m.pt1ksd),
    ])
}

pub fn ccs_raws(m: CcsExtraInformation) -> Raws
    ensures { result ≡ pad signal_count (ccs_raws m) }
{
    padded([m.state.raw(), i64::from(m.duty), wide_raw(m.reserved)])
}

pub fn mcs_raws(m: McsExtraInformation) -> Raws
    ensures { result ≡ pad signal_count (mcs_raws m) }
{
    padded([m.ce.raw(), m.id.raw(), wide_raw(m.reserved)])
}

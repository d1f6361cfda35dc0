// The raw numbers of each message's signals, in the table's order.
// Kept (2): a trait of both functions is longer (message_safety/build.rt says by how much), and its impls would stand in the crate of the types.
ghost use Rattle.std.specs.Prelude.{◌≡◌};
ghost use Rattle.page_write.specs.Raws.{pad};
ghost use Rattle.page_write.specs.page_table.specs.Table.{signal_count};
ghost use Rattle.message_sequence.specs.Take.{sequence_raws, outputs_raws};

use message_fields::wide_raw;
use message_types::labels::Label;
use message_types::{SeccOutputs, SequenceControl, padded};
use page_write::Raws;

pub fn sequence_raws(m: SequenceControl) -> Raws
    ensures { result ≡ pad signal_count (sequence_raws m) }
{
    padded([
        m.authorisation.raw(),
        m.chademo.raw(),
        m.done.raw(),
        m.valid.raw(),
        m.parameters.raw(),
        m.stop.raw(),
    ])
}

#[tactic(auto, using(message_fields::proofs::Flags::flag_is))]
pub fn outputs_raws(m: SeccOutputs) -> Raws
    ensures { result ≡ pad signal_count (outputs_raws m) }
{
    padded([
        i64::from(m.output1),
        i64::from(m.output2),
        i64::from(m.output3),
        i64::from(m.output4),
        wide_raw(m.reserved),
    ])
}

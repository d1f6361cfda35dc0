// A message of its signals' raw numbers, in the table's order.
// Kept (2): a trait of both functions is longer (message_safety/build.rt says by how much), and its impls would stand in the crate of the types.
ghost use Rattle.std.specs.Prelude.{◌≡◌};
ghost use Rattle.message_fields.specs.Fields.{at};
ghost use Rattle.message_sequence.specs.Build.{sequence_of, outputs_of};

use message_fields::{flag, natural};
use message_types::labels::Label;
use message_types::{SeccOutputs, SequenceControl};
use page_write::Raws;

pub fn sequence(f: Raws) -> SequenceControl
    ensures { result ≡ sequence_of (at f) }
{
    SequenceControl {
        authorisation: Label::of_raw(f[0]),
        chademo: Label::of_raw(f[1]),
        done: Label::of_raw(f[2]),
        valid: Label::of_raw(f[3]),
        parameters: Label::of_raw(f[4]),
        stop: Label::of_raw(f[5]),
    }
}

pub fn outputs(f: Raws) -> SeccOutputs
    ensures { result ≡ outputs_of (at f) }
{
    SeccOutputs {
        output1: flag(f[0]),
        output2: flag(f[1]),
        output3: flag(f[2]),
        output4: flag(f[3]),
        reserved: natural(f[4]),
    }
}

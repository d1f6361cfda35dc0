// A message of its signals' raw numbers, in the table's order.
// Kept (2): a trait of both functions is longer (message_safety/build.rt says by how much), and its impls would stand in the crate of the types.
ghost use Rattle.std.specs.Prelude.{◌≡◌};
ghost use Rattle.message_fields.specs.Fields.{at};
ghost use Rattle.message_extra.specs.Build.{spcc_of, ccs_of, mcs_of};

use message_fields::{celsius, flag, natural, word};
use message_types::labels::Label;
use message_types::{CcsExtraInformation, McsExtraInformation, SpccInputs};
use page_write::Raws;

pub fn spcc(f: Raws) -> SpccInputs
    ensures { result ≡ spcc_of (at f) }
{
    SpccInputs {
        input1: flag(f[0]),
        input2: flag(f[1]),
        input3: flag(f[2]),
        input4: flag(f[3]),
        reserved: natural(f[4]),
        cpu0: celsius(f[5]),
        cpu1: celsius(f[6]),
        pt1ka: celsius(f[7]),
        pt1kb: celsius(f[8]),
        pt1ksc: celsius(f[9]),
        pt1ksd: celsius(f[10]),
    }
}

pub fn ccs(f: Raws) -> CcsExtraInformation
    ensures { result ≡ ccs_of (at f) }
{
    CcsExtraInformation {
        state: Label::of_raw(f[0]),
        duty: word(f[1]),
        reserved: natural(f[2]),
    }
}

pub fn mcs(f: Raws) -> McsExtraInformation
    ensures { result ≡ mcs_of (at f) }
{
    McsExtraInformation {
        ce: Label::of_raw(f[0]),
        id: Label::of_raw(f[1]),
        reserved: natural(f[2]),
    }
}

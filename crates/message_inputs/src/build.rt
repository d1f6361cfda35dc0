// A message of its signals' raw numbers, in the table's order.
// Kept (2): a trait of both functions is longer (message_safety/build.rt says by how much), and its impls would stand in the crate of the types.
ghost use Rattle.std.specs.Prelude.{◌≡◌};
ghost use Rattle.message_fields.specs.Fields.{at};
ghost use Rattle.message_inputs.specs.Build.{cui_of, secc_of};

use message_fields::{celsius, flag, natural};
use message_types::{CuiInputs, SeccInputs};
use page_write::Raws;

pub fn cui(f: Raws) -> CuiInputs
    ensures { result ≡ cui_of (at f) }
{
    CuiInputs {
        switch0: flag(f[0]),
        switch1: flag(f[1]),
        switch2: flag(f[2]),
        switch3: flag(f[3]),
        switch4: flag(f[4]),
        switch5: flag(f[5]),
        reserved: natural(f[6]),
        colibri: celsius(f[7]),
        cpu: celsius(f[8]),
        pistol1: celsius(f[9]),
        pistol2: celsius(f[10]),
    }
}

pub fn secc(f: Raws) -> SeccInputs
    ensures { result ≡ secc_of (at f) }
{
    SeccInputs {
        input1: flag(f[0]),
        input2: flag(f[1]),
        input3: flag(f[2]),
        input4: flag(f[3]),
        reserved: natural(f[4]),
        cpu: celsius(f[5]),
        pistol1: celsius(f[6]),
        pistol2: celsius(f[7]),
    }
}

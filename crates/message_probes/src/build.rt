// A message of its signals' raw numbers, in the table's order.
// Kept (2): a trait of both functions is longer (message_safety/build.rt says by how much), and its impls would stand in the crate of the types.
ghost use Rattle.std.specs.Prelude.{◌≡◌};
ghost use Rattle.message_fields.specs.Fields.{at};
ghost use Rattle.message_probes.specs.Build.{probes_of};

use message_fields::{flag, short};
use message_types::Pt1000State;
use page_write::Raws;

pub fn probes(f: Raws) -> Pt1000State
    ensures { result ≡ probes_of (at f) }
{
    Pt1000State {
        temperature1: short(f[0]),
        stopped1: flag(f[1]),
        failed1: flag(f[2]),
        temperature2: short(f[3]),
        stopped2: flag(f[4]),
        failed2: flag(f[5]),
        temperature3: short(f[6]),
        stopped3: flag(f[7]),
        failed3: flag(f[8]),
        temperature4: short(f[9]),
        stopped4: flag(f[10]),
        failed4: flag(f[11]),
    }
}

// The raw numbers of each message's signals, in the table's order.
// Kept (2): a trait of both functions is longer (message_safety/build.rt says by how much), and its impls would stand in the crate of the types.
ghost use Rattle.std.specs.Prelude.{◌≡◌};
ghost use Rattle.page_write.specs.Raws.{pad};
ghost use Rattle.page_write.specs.page_table.specs.Table.{signal_count};
ghost use Rattle.message_probes.specs.Take.{probes_raws};

use message_types::{Pt1000State, padded};
use page_write::Raws;

pub fn probes_raws(m: Pt1000State) -> Raws
    ensures { result ≡ pad signal_count (probes_raws m) }
{
    padded([
        i64::from(m.temperature1),
        i64::from(m.stopped1),
        i64::from(m.failed1),
        i64::from(m.temperature2),
        i64::from(m.stopped2),
        i64::from(m.failed2),
        i64::from(m.temperature3),
        i64::from(m.stopped3),
        i64::from(m.failed3),
        i64::from(m.temperature4),
        i64::from(m.stopped4),
        i64::from(m.failed4),
    ])
}

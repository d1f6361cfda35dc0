// The raw numbers of each message's signals, in the table's order.
// Kept (2): a trait of both functions is longer (message_safety/build.rt says by how much), and its impls would stand in the crate of the types.
ghost use Rattle.std.specs.Prelude.{◌≡◌};
ghost use Rattle.page_write.specs.Raws.{pad};
ghost use Rattle.page_write.specs.page_table.specs.Table.{signal_count};
ghost use Rattle.message_inputs.specs.Take.{cui_raws, secc_raws};

use message_fields::{celsius_raw, wide_raw};
use message_types::{CuiInputs, SeccInputs, padded};
use page_write::Raws;

pub fn cui_raws(m: CuiInputs) -> Raws
    ensures { result ≡ pad signal_count (cui_raws m) }
{
    padded([
        i64::from(m.switch0),
        i64::from(m.switch1),
        i64::from(m.switch2),
        i64::from(m.switch3),
        i64::from(m.switch4),
        i64::from(m.switch5),
        wide_raw(m.reserved),
        celsius_raw(m.colibri),
        celsius_raw(m.cpu),
        celsius_raw(m.pistol1),
        celsius_raw(m.pistol2),
    ])
}

pub fn secc_raws(m: SeccInputs) -> Raws
    ensures { result ≡ pad signal_count (secc_raws m) }
{
    padded([
        i64::from(m.input1),
        i64::from(m.input2),
        i64::from(m.input3),
        i64::from(m.input4),
        wide_raw(m.reserved),
        celsius_raw(m.cpu),
        celsius_raw(m.pistol1),
        celsius_raw(m.pistol2),
    ])
}

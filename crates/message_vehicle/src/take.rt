// The raw numbers of each message's signals, in the table's order.
// Kept (2): the messages' fields have names of their own, so each function names its own; what they do alike, a number or a label as a raw number and 0 past
// the last, is message_fields', `Label`'s and `padded`.
// Kept (2): a trait of both functions is longer (message_safety/build.rt says by how much), and its impls would stand in the crate of the types.
ghost use Rattle.std.specs.Prelude.{◌≡◌};
ghost use Rattle.page_write.specs.Raws.{pad};
ghost use Rattle.page_table.specs.Table.{signal_count};
ghost use Rattle.message_vehicle.specs.Take.{battery_raws, voltages_raws, limits_raws, energy_raws, ocpp_raws};

use message_types::{
    EvInformationBattery, EvInformationEnergy, EvInformationLimits, EvInformationVoltages,
    OcppControl, padded,
};
use page_write::Raws;

pub fn battery_raws(m: EvInformationBattery) -> Raws
    ensures { result ≡ pad signal_count (battery_raws m) }
{
    padded([
        i64::from(m.capacity),
        i64::from(m.present),
        i64::from(m.minimum),
        i64::from(m.target),
        i64::from(m.maximum),
    ])
}

pub fn voltages_raws(m: EvInformationVoltages) -> Raws
    ensures { result ≡ pad signal_count (voltages_raws m) }
{
    padded([
        i64::from(m.minimum),
        i64::from(m.maximum),
        i64::from(m.present),
    ])
}

pub fn limits_raws(m: EvInformationLimits) -> Raws
    ensures { result ≡ pad signal_count (limits_raws m) }
{
    padded([
        i64::from(m.mincurrent),
        i64::from(m.maxcurrent),
        i64::from(m.minpower),
        i64::from(m.maxpower),
    ])
}

pub fn energy_raws(m: EvInformationEnergy) -> Raws
    ensures { result ≡ pad signal_count (energy_raws m) }
{
    padded([
        i64::from(m.minimum),
        i64::from(m.target),
        i64::from(m.maximum),
    ])
}

pub fn ocpp_raws(m: OcppControl) -> Raws
    ensures { result ≡ pad signal_count (ocpp_raws m) }
{
    padded([i64::from(m.target)])
}

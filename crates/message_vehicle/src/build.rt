// A message of its signals' raw numbers, in the table's order.
// Kept (2): the messages' fields have names of their own, which the codec's users read, so each function names its own; what they do alike, taking a field or a
// label of its raw number, is message_fields' and `Label`'s.
// Kept (2): a trait of both functions is longer (message_safety/build.rt says by how much), and its impls would stand in the crate of the types.
ghost use Rattle.std.specs.Prelude.{◌≡◌};
ghost use Rattle.message_fields.specs.Fields.{at};
ghost use Rattle.message_vehicle.specs.Build.{battery_of, voltages_of, limits_of, energy_of, ocpp_of};

use message_fields::{byte, short, word};
use message_types::{
    EvInformationBattery, EvInformationEnergy, EvInformationLimits, EvInformationVoltages,
    OcppControl,
};
use page_write::Raws;

pub fn battery(f: Raws) -> EvInformationBattery
    ensures { result ≡ battery_of (at f) }
{
    EvInformationBattery {
        capacity: word(f[0]),
        present: byte(f[1]),
        minimum: byte(f[2]),
        target: byte(f[3]),
        maximum: byte(f[4]),
    }
}

pub fn voltages(f: Raws) -> EvInformationVoltages
    ensures { result ≡ voltages_of (at f) }
{
    EvInformationVoltages {
        minimum: word(f[0]),
        maximum: word(f[1]),
        present: word(f[2]),
    }
}

pub fn limits(f: Raws) -> EvInformationLimits
    ensures { result ≡ limits_of (at f) }
{
    EvInformationLimits {
        mincurrent: word(f[0]),
        maxcurrent: word(f[1]),
        minpower: word(f[2]),
        maxpower: word(f[3]),
    }
}

pub fn energy(f: Raws) -> EvInformationEnergy
    ensures { result ≡ energy_of (at f) }
{
    EvInformationEnergy {
        minimum: short(f[0]),
        target: short(f[1]),
        maximum: short(f[2]),
    }
}

pub fn ocpp(f: Raws) -> OcppControl
    ensures { result ≡ ocpp_of (at f) }
{
    OcppControl {
        target: short(f[0]),
    }
}

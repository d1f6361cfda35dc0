// A message of its signals' raw numbers, in the table's order.
// Kept (2): the messages' fields have names of their own, which the codec's users read, so each function names its own; what they do alike, taking a field or a
// label of its raw number, is message_fields' and `Label`'s.
// Kept (2): a trait of both functions is longer (message_safety/build.rt says by how much), and its impls would stand in the crate of the types.
ghost use Rattle.std.specs.Prelude.{◌≡◌};
ghost use Rattle.message_fields.specs.Fields.{at};
ghost use Rattle.older_power.specs.Build.{limits_of, session_of, insulation_of, precharge_of, charging_of};

use message_fields::{byte, natural, short, word};
use older_fields::capacity;
use older_types::message_types::labels::Label;
use older_types::{
    ChargingLoop, InsulationTest, NewChargeSession, PowerModulesLimits, PrechargeTarget,
};
use page_write::Raws;

pub fn limits(f: Raws) -> PowerModulesLimits
    ensures { result ≡ limits_of (at f) }
{
    PowerModulesLimits {
        voltage: word(f[0]),
        current: short(f[1]),
        reserved: natural(f[2]),
    }
}

pub fn session(f: Raws) -> NewChargeSession
    ensures { result ≡ session_of (at f) }
{
    NewChargeSession {
        protocol: Label::of_raw(f[0]),
        plug: Label::of_raw(f[1]),
        voltage: word(f[2]),
        current: word(f[3]),
        capacity: capacity(f[4]),
        charge: byte(f[5]),
    }
}

pub fn insulation(f: Raws) -> InsulationTest
    ensures { result ≡ insulation_of (at f) }
{
    InsulationTest {
        voltage: word(f[0]),
    }
}

pub fn precharge(f: Raws) -> PrechargeTarget
    ensures { result ≡ precharge_of (at f) }
{
    PrechargeTarget {
        voltage: word(f[0]),
        current: word(f[1]),
    }
}

pub fn charging(f: Raws) -> ChargingLoop
    ensures { result ≡ charging_of (at f) }
{
    ChargingLoop {
        voltage: word(f[0]),
        current: short(f[1]),
        charge: byte(f[2]),
    }
}

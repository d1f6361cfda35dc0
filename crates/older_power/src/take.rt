// The raw numbers of each message's signals, in the table's order.
// Kept (2): the messages' fields have names of their own, so each function names its own; what they do alike, a number or a label as a raw number and 0 past
// the last, is message_fields', `Label`'s and `padded`.
// Kept (2): a trait of both functions is longer (message_safety/build.rt says by how much), and its impls would stand in the crate of the types.
ghost use Rattle.std.specs.Prelude.{◌≡◌};
ghost use Rattle.page_write.specs.Raws.{pad};
ghost use Rattle.page_table.specs.Table.{signal_count};
ghost use Rattle.older_power.specs.Take.{limits_raws, session_raws, insulation_raws, precharge_raws, charging_raws};

use message_fields::wide_raw;
use older_fields::capacity_raw;
use older_types::message_types::labels::Label;
use older_types::message_types::padded;
use older_types::{
    ChargingLoop, InsulationTest, NewChargeSession, PowerModulesLimits, PrechargeTarget,
};
use page_write::Raws;

pub fn limits_raws(m: PowerModulesLimits) -> Raws
    ensures { result ≡ pad signal_count (limits_raws m) }
{
    padded([
        i64::from(m.voltage),
        i64::from(m.current),
        wide_raw(m.reserved),
    ])
}

pub fn session_raws(m: NewChargeSession) -> Raws
    ensures { result ≡ pad signal_count (session_raws m) }
{
    padded([
        m.protocol.raw(),
        m.plug.raw(),
        i64::from(m.voltage),
        i64::from(m.current),
        capacity_raw(m.capacity),
        i64::from(m.charge),
    ])
}

pub fn insulation_raws(m: InsulationTest) -> Raws
    ensures { result ≡ pad signal_count (insulation_raws m) }
{
    padded([i64::from(m.voltage)])
}

pub fn precharge_raws(m: PrechargeTarget) -> Raws
    ensures { result ≡ pad signal_count (precharge_raws m) }
{
    padded([i64::from(m.voltage), i64::from(m.current)])
}

pub fn charging_raws(m: ChargingLoop) -> Raws
    ensures { result ≡ pad signal_count (charging_raws m) }
{
    padded([
        i64::from(m.voltage),
        i64::from(m.current),
        i64::from(m.charge),
    ])
}

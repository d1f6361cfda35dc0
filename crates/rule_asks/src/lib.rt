// What a rule asks of a message's fields, by value. For the post's findings; the rules themselves stand in `rules`.
#![tactic(auto)]

ghost use Rattle.std.specs.Prelude.{◌≡◌, ◌≤◌};
ghost use Rattle.rule_asks.specs.Judgements.{is_close, is_off, is_powered, is_carrying, lowers_badly, outside, leaking, bad_insulation, bit};

use message_types::{
    DcPowerControl, LowerOutput, OutputContactors, PowerFunction, PowerModulesStatus,
};
use rule_limits::Sensor;

// Kept (4): with `==` in its place the check does not find the sum of `control_findings`.
pub fn close(x: OutputContactors) -> bool
    ensures { result ≡ is_close x }
{
    x == OutputContactors::Close
}

// Kept (4): as `close`.
pub fn off(f: PowerFunction) -> bool
    ensures { result ≡ is_off f }
{
    f == PowerFunction::Off
}

pub fn powered(f: PowerFunction) -> bool
    ensures { result ≡ is_powered f }
{
    matches!(
        f,
        PowerFunction::InsulationTest | PowerFunction::Precharge | PowerFunction::PowerTransfer
    )
}

pub fn carrying(f: PowerFunction) -> bool
    ensures { result ≡ is_carrying f }
{
    matches!(f, PowerFunction::Precharge | PowerFunction::PowerTransfer)
}

// F6
#[tactic(auto, unfolding(crate::specs::Judgements::lowers_badly))]
pub fn lowers_badly(d: DcPowerControl) -> bool
    ensures { result ≡ lowers_badly d }
{
    d.lowering == LowerOutput::Lowering
        && !(d.function == PowerFunction::Standby && d.target == 0 && d.max == 0 && d.min == 0)
}

// F8
#[tactic(auto, unfolding(crate::specs::Judgements::outside))]
pub fn is_outside(current: i16, charge: u32, discharge: u32) -> bool
    ensures { result ≡ outside current charge discharge }
{
    let z = i64::from(current);
    i64::from(charge) < z || z < -i64::from(discharge)
}

// F9 of a measuring sensor
#[tactic(auto, unfolding(crate::specs::Judgements::leaking))]
fn is_leaking(s: PowerModulesStatus) -> bool
    ensures { result ≡ leaking s }
{
    u32::from(s.insulation) * 100 < u32::from(s.voltage)
}

// F9
#[tactic(auto, unfolding(crate::specs::Judgements::bad_insulation))]
pub fn insulates_badly(sensor: Sensor, s: PowerModulesStatus) -> bool
    ensures { result ≡ bad_insulation sensor s }
{
    match sensor {
        Sensor::Measuring => is_leaking(s),
        Sensor::YesNo => s.insulation == 0,
    }
}

pub fn flag(b: bool, w: u32) -> u32
    ensures { (result ≡ bit b w) × (result ≤ w) }
{
    if b { w } else { 0 }
}

// A post's limits: how they are handed in and out and how a post keeps them, the ranges that set-up takes, and what a received number makes of a default.
// For the rules and for every crate that hands limits on.
#![tactic(auto)]

ghost use Rattle.std.specs.Prelude.{◌≡◌};
ghost use Rattle.rule_limits.specs.Limits.{limits_fit, capped};

pub use page_table::Interface;

pub mod kept; // kept.rt: limits as they are handed in and out, and as they are kept

// 02, Req 03: an insulation sensor that measures, or one that only knows yes and no.
#[derive(Clone, Copy)]
pub enum Sensor {
    Measuring = 0,
    YesNo = 1,
}

// Default voltage in tenths of a volt, default charge and discharge current in tenths of an ampere, power module silence W in ms, the sensor kind, and the
// interface whose pages the post reads (02, Req 11).
#[derive(Clone, Copy)]
pub struct Limits {
    pub voltage: u32,
    pub charge: u32,
    pub discharge: u32,
    pub silence: u32,
    pub sensor: Sensor,
    pub interface: Interface,
}

// The same as a post keeps them: the sensor kind and the interface by their numbers.
#[repr(C)]
#[derive(Clone, Copy, Default)]
pub struct PlainLimits {
    pub voltage: u32,
    pub charge: u32,
    pub discharge: u32,
    pub silence: u32,
    pub sensor: u32,
    pub interface: u32,
}

// Set-up's 12 is given where they do not fit.
#[tactic(auto, unfolding(crate::specs::Limits::limits_fit))]
pub fn limits_fit(lim: PlainLimits) -> bool
    ensures { result ≡ limits_fit lim }
{
    (1..=65535).contains(&lim.voltage)
        && (1..=32767).contains(&lim.charge)
        && lim.discharge <= 32767
        && (100..=60000).contains(&lim.silence)
        && lim.sensor <= 1
        && lim.interface <= 1
}

// The default and the number that was received.
pub fn cap(most: u32, got: u16) -> u32
    ensures { result ≡ capped most got }
{
    if got == 0 {
        most
    } else {
        most.min(u32::from(got))
    }
}
